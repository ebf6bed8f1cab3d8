// What the C face calls: a walk of a tree that is given as bytes, the size of a table's tree, the check of a tree against its table, the
// listing of an image, the cycles of an entry, how far its withdrawal reaches, and the numbers and texts of operands; each answer in 64
// bits. The crate kilnumber_c exports each function under its name; include/kilnumber.h is its header.
#![tactic(auto)]

ghost use Rattle.std.specs.Prelude.{◌≡◌, ℕ, ◌<◌, ◌^◌};
ghost use Rattle.words.specs.Outcome.{said, refused_as};
ghost use Rattle.flat.specs.Walk.{mask_or_zero};
ghost use Rattle.walker.specs.Walked.{walk_bytes};
ghost use Rattle.table.specs.Check.{read_table};
ghost use Rattle.tree.specs.Generate.{measure_of};
ghost use Rattle.checker.specs.Checker.{check_of};
ghost use Rattle.cost.specs.Cost.{cycles_of};
ghost use Rattle.withdrawal.specs.Counted.{changed_of};
ghost use Rattle.numbers.specs.Whole.{on_side};
ghost use Rattle.numbers.specs.Calls.{signed_of, stored_of};
ghost use Rattle.kilnumber.specs.Packed.{packed, packed_number, packed_check, packed_measure, packed_count, packed_whole, packed_signed};
ghost use Rattle.kilnumber.specs.Packed.{ListsPacked, WritesPacked};

use numbers::Side;
use words::{Cause, Refusal};

// What the simulator calls: uint64_t kilnumber_walk(const uint8_t *tree, size_t tree_bytes, uint32_t word).
#[tactic(auto, unfolding(walker::specs::Walked::walk_bytes))]
pub fn kilnumber_walk(tree: &[u8], word: u32) -> u64
    ensures { result ≡ packed (walk_bytes tree.now word) }
{
    match walker::walk_bytes(tree, word) {
        Ok(walked) => {
            let entry = walked.entry.unwrap_or(256);
            (entry as u64) + (walked.count as u64) * 65536
        }
        Err(refusal) => {
            let cause = Cause::from(refusal);
            (cause.number as u64) * 4294967296 + (cause.place as u64) * 281474976710656
        }
    }
}

// What a cache of decoded words calls: uint32_t kilnumber_mask(const uint8_t *tree, size_t tree_bytes, uint32_t word).
#[tactic(auto, unfolding(walker::specs::Walked::walk_bytes))]
pub fn kilnumber_mask(tree: &[u8], word: u32) -> u32
    ensures { result ≡ mask_or_zero (walk_bytes tree.now word) }
{
    walker::mask_bytes(tree, word)
}

// What refuses any other call, in 64 bits: its number from bit 32 on, and its place.
fn pack_refusal(refusal: Refusal) -> u64
    ensures { result ≡ packed_number (refused_as refusal) }
{
    let cause = Cause::from(refusal);
    (cause.place as u64) + (cause.number as u64) * 4294967296
}

// The same with the word, where a call's refusals may have one; none has a place too.
fn pack_worded(refusal: Refusal) -> u64
    ensures { result ≡ packed_count (refused_as refusal) }
{
    pack_refusal(refusal) + (Cause::from(refusal).word as u64)
}

// The answer of a call that gives a number.
fn pack_number(answer: Result<u32, Refusal>) -> u64
    ensures { result ≡ packed_number (said answer) }
{
    match answer {
        Ok(number) => number as u64,
        Err(refusal) => pack_refusal(refusal),
    }
}

// What lists an image for C: each slice is a pointer and a length there, in words for the table, the tree and the buffer.
pub fn kilnumber_list(table: &[u32], tree: &[u32], image: &[u8], out: &mut [u32]) -> u64
    ensures { ListsPacked table.now tree.now image.now out.old out.new result }
{
    pack_number(image::list(table, tree, image, out))
}

// What a simulator calls once, for a tree that it did not make: whether it is right for the table.
pub fn kilnumber_check(table: &[u32], tree: &[u32]) -> u64
    ensures { result ≡ packed_check (check_of (read_table table.now) tree.now) }
{
    match checker::check(table, tree) {
        Ok(()) => 0,
        Err(refusal) => pack_refusal(refusal),
    }
}

// What a board's tool calls before it lends memory for a tree: how many nodes, and how many tests at most.
pub fn kilnumber_measure(table: &[u32]) -> u64
    ensures { result ≡ packed_measure (measure_of (read_table table.now)) }
{
    match maker::measure(table) {
        Ok(size) => (size.nodes as u64) + (size.tests as u64) * 65536,
        Err(refusal) => pack_worded(refusal),
    }
}

// What a battery account calls, for each entry of its table: what one instruction of it costs.
pub fn kilnumber_cycles(table: &[u32], entry: u32) -> u64
    ensures { result ≡ packed_number (cycles_of (read_table table.now) entry) }
{
    pack_number(cost::cycles(table, entry))
}

// What a core's designer calls before an instruction is withdrawn: how many words of a list, of a firmware say, it changes.
pub fn kilnumber_changed(table: &[u32], entry: u32, list: &[u32]) -> u64
    ensures { result ≡ packed_count (changed_of (read_table table.now) entry list.now) }
{
    match withdrawal::count_changed(table, entry, list) {
        Ok(changed) => {
            let n = changed as u64;
            n % 4294967296 + n / 4294967296 % 16777216 * 1099511627776
        }
        Err(refusal) => pack_worded(refusal),
    }
}

// A whole number of at most 32 bits beside its sign, in 64 bits.
#[tactic(auto, unfolding(numbers::specs::Whole::on_side))]
fn pack_whole(side: Side) -> u64
    requires { side.size < 2 ^ 32 }
    ensures { result ≡ packed_whole (on_side side.below side.size) }
{
    if side.below {
        1099511627776 + (4294967295 - side.size)
    } else {
        side.size
    }
}

// What a simulator calls to show an operand: the signed whole number of a field's stored value.
pub fn kilnumber_signed(field: u32, value: u32) -> u64
    ensures { result ≡ packed_signed (signed_of field value) }
{
    match numbers::signed(field, value) {
        Ok(number) => pack_whole(Side::from(number)),
        Err(refusal) => pack_refusal(refusal),
    }
}

// What an assembler calls: the stored value of a signed whole number.
pub fn kilnumber_stored(field: u32, number: i64) -> u64
    ensures { result ≡ packed_number (stored_of field number) }
{
    pack_number(numbers::stored(field, number))
}

// What a simulator calls to print an operand: its exact decimal text at the start of a buffer.
pub fn kilnumber_text(field: u32, value: u32, out: &mut [u8]) -> u64
    ensures { WritesPacked field value out.old out.new result }
{
    pack_number(numbers::put_text(field, value, out))
}
