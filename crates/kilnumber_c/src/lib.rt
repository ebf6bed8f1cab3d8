// The library for C: each function of the crate kilnumber under its own name, with the same contract. include/kilnumber.h is its header.
// kept: C links a static library with these names; programs in Rattle call the same functions of the crate kilnumber
#![tactic(auto)]

ghost use Rattle.std.specs.Prelude.{◌≡◌};
ghost use Rattle.flat.specs.Walk.{mask_or_zero};
ghost use Rattle.walker.specs.Walked.{walk_bytes};
ghost use Rattle.table.specs.Check.{read_table};
ghost use Rattle.tree.specs.Generate.{measure_of};
ghost use Rattle.checker.specs.Checker.{check_of};
ghost use Rattle.cost.specs.Cost.{cycles_of};
ghost use Rattle.withdrawal.specs.Counted.{changed_of};
ghost use Rattle.numbers.specs.Calls.{signed_of, stored_of};
ghost use Rattle.kilnumber.specs.Packed.{packed, packed_number, packed_check, packed_measure, packed_count, packed_signed};
ghost use Rattle.kilnumber.specs.Packed.{ListsPacked, WritesPacked};

#[unsafe(no_mangle)]
pub extern "C" fn kilnumber_walk(tree: &[u8], word: u32) -> u64
    ensures { result ≡ packed (walk_bytes tree.now word) }
{
    kilnumber::kilnumber_walk(tree, word)
}

#[unsafe(no_mangle)]
pub extern "C" fn kilnumber_mask(tree: &[u8], word: u32) -> u32
    ensures { result ≡ mask_or_zero (walk_bytes tree.now word) }
{
    kilnumber::kilnumber_mask(tree, word)
}

#[unsafe(no_mangle)]
pub extern "C" fn kilnumber_list(table: &[u32], tree: &[u32], image: &[u8], out: &mut [u32]) -> u64
    ensures { ListsPacked table.now tree.now image.now out.old out.new result }
{
    kilnumber::kilnumber_list(table, tree, image, out)
}

#[unsafe(no_mangle)]
pub extern "C" fn kilnumber_check(table: &[u32], tree: &[u32]) -> u64
    ensures { result ≡ packed_check (check_of (read_table table.now) tree.now) }
{
    kilnumber::kilnumber_check(table, tree)
}

#[unsafe(no_mangle)]
pub extern "C" fn kilnumber_measure(table: &[u32]) -> u64
    ensures { result ≡ packed_measure (measure_of (read_table table.now)) }
{
    kilnumber::kilnumber_measure(table)
}

#[unsafe(no_mangle)]
pub extern "C" fn kilnumber_cycles(table: &[u32], entry: u32) -> u64
    ensures { result ≡ packed_number (cycles_of (read_table table.now) entry) }
{
    kilnumber::kilnumber_cycles(table, entry)
}

#[unsafe(no_mangle)]
pub extern "C" fn kilnumber_changed(table: &[u32], entry: u32, list: &[u32]) -> u64
    ensures { result ≡ packed_count (changed_of (read_table table.now) entry list.now) }
{
    kilnumber::kilnumber_changed(table, entry, list)
}

#[unsafe(no_mangle)]
pub extern "C" fn kilnumber_signed(field: u32, value: u32) -> u64
    ensures { result ≡ packed_signed (signed_of field value) }
{
    kilnumber::kilnumber_signed(field, value)
}

#[unsafe(no_mangle)]
pub extern "C" fn kilnumber_stored(field: u32, number: i64) -> u64
    ensures { result ≡ packed_number (stored_of field number) }
{
    kilnumber::kilnumber_stored(field, number)
}

#[unsafe(no_mangle)]
pub extern "C" fn kilnumber_text(field: u32, value: u32, out: &mut [u8]) -> u64
    ensures { WritesPacked field value out.old out.new result }
{
    kilnumber::kilnumber_text(field, value, out)
}
