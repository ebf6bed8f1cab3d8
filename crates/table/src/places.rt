// Where the parts of an entry stand, from the place of its head word on.
ghost use Rattle.std.specs.Prelude.{◌≡◌, ◌+◌, ◌≤◌};
ghost use Rattle.table.specs.Table.{has_cycles, cycles_at, fields_place, conditions_place};

use words::Kind;

// Whether the entries of a table have a cycles word each: its first word is of kind 6.
pub fn has_cycles(ws: &[u32]) -> bool
    ensures { result ≡ has_cycles ws.now }
{
    Kind::TableWithCycles.is_of(words::word_at(ws, 0))
}

// The place of the first field of the entry at p.
pub fn fields_at(ws: &[u32], p: u32) -> usize
    ensures { (result ≡ fields_place ws.now p) × (result ≤ p + 4) }
{
    let at = p as usize;
    if has_cycles(ws) { at + 4 } else { at + 3 }
}

// The place of its first condition.
pub fn conditions_at(ws: &[u32], p: u32) -> usize
    ensures { (result ≡ conditions_place ws.now p) × (result ≤ p + 19) }
{
    let fields = words::part(words::word_at(ws, p as usize), 4, 4);
    fields_at(ws, p) + fields as usize
}

// The cycles of the entry at p; 0 in a table without them.
pub fn cycles_at(ws: &[u32], p: u32) -> u32
    ensures { result ≡ cycles_at ws.now p }
{
    // kept: 0 is what document 02 says of a table without cycles, a number like others
    if !has_cycles(ws) {
        return 0;
    }
    words::word_at(ws, p as usize + 3)
}
