// The decision in a cell: what each entry is there, what that settles, and if nothing, which bit to test.
#![tactic(auto)]

ghost use Rattle.std.specs.Prelude.{◌≡◌, ◌<◌, min};
ghost use Rattle.choice.specs.Judged.{entry_of, said_verdict};
ghost use Rattle.cell.specs.Cell.{zero_side, one_side};
ghost use Rattle.cell.specs.Step.{settled_at, step_at};
ghost use Rattle.cell.specs.Decide.{cell_of, said_decision};

use choice::{Status, Verdict};
use standing::Standing;
use table::Entries;

mod items;
mod standing;
mod testing;
mod walking;

// A cell: the bits that it fixes, as a mask, and their values.
#[derive(Clone, Copy, PartialEq, Eq)]
pub struct Cell {
    pub fixed: u32,
    pub bits: u32,
}

impl Cell {
    // The cell of every word.
    pub const START: Cell = Cell { fixed: 0, bits: 0 };

    // The cell that fixes the bit too, at 0; of a bit that no word has it is the same cell.
    pub fn zero_side(self, bit: u32) -> Cell
        ensures below { bit < 32 → cell_of result ≡ zero_side (cell_of self) bit }
        ensures beyond { 31 < bit → result ≡ self }
    {
        Cell {
            fixed: self.fixed | words::run(bit, 1),
            bits: self.bits,
        }
    }

    // The cell that fixes the bit too, at 1; of a bit that no word has it is the same cell.
    pub fn one_side(self, bit: u32) -> Cell
        ensures below { bit < 32 → cell_of result ≡ one_side (cell_of self) bit }
        ensures beyond { 31 < bit → result ≡ self }
    {
        let one = words::run(bit, 1);
        Cell {
            fixed: self.fixed | one,
            bits: self.bits | one,
        }
    }
}

// What to do with a cell: a leaf, or a bit to test.
// kept: the cases of the definition's Step, one for one
#[derive(Clone, Copy, PartialEq, Eq)]
pub enum Decision {
    Names(u8),
    Nothing,
    Conflict,
    Test(u8),
}

// What steps 1 and 2 settle of the cell.
pub fn settle(entries: &Entries, cell: Cell) -> Verdict
    ensures { said_verdict result ≡ settled_at (entry_of entries.now) (min entries.now.count 256) (cell_of cell) }
{
    // kept: fixed memory
    let mut statuses = [Status::Dead; 256];
    Standing::of(entries, cell, &mut statuses).verdict()
}

// What to do with the cell.
pub fn decide(entries: &Entries, width: u32, cell: Cell) -> Decision
    ensures { said_decision result ≡ step_at (entry_of entries.now) (min entries.now.count 256) (min width 32) (cell_of cell) }
{
    // kept: each case of the verdict is another decision, two of them by a question more
    let mut statuses = [Status::Dead; 256];
    let standing = Standing::of(entries, cell, &mut statuses);
    match standing.verdict() {
        Verdict::Names(i) => Decision::Names(i as u8),
        Verdict::Nothing => Decision::Nothing,
        Verdict::Stuck => {
            if !standing.any_open() {
                return Decision::Conflict;
            }
            let tested = standing.bit_to_test(width.min(32));
            Decision::Test(tested as u8)
        }
    }
}
