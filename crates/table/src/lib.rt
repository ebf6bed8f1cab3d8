// Reads a pattern table: the first fault, numbers 1 to 4, or its width, its number of entries and each entry's place.
#![tactic(auto)]

ghost use Rattle.table.specs.Ready.{Ready};

mod places;
mod reading;

use places::has_cycles;
pub use places::{conditions_at, cycles_at, fields_at};
pub use reading::{field_fault, read};

// The words of a table, and where each of its entries stands in them: the first `count` places. Whoever reads entries by it is total: what
// the words and the places say need not be a table.
// kept: fixed memory: an array of 256, with the number in use beside
#[derive(Clone, Copy)]
pub struct Entries<'a> {
    pub words: &'a [u32],
    pub places: [u32; 256],
    pub count: usize,
}

// A table without fault, as reading it gives it.
#[derive(Clone, Copy)]
pub struct Table<'a> {
    pub entries: Entries<'a>,
    pub width: u32,
    ghost ready: { Ready entries.words.now entries.places width entries.count },
}
