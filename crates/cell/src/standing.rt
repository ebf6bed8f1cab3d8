// What patterns, conditions and entries are in a cell.
ghost use Rattle.std.specs.Prelude.{◌≡◌, ◌<◌, ℕ, min, length, get_or};
ghost use Rattle.words.specs.Tests.{any_of, all_of};
ghost use Rattle.table.specs.Table.{entry_at};
ghost use Rattle.cell.specs.Cell.{implies, clashes, holds, fails};
ghost use Rattle.cell.specs.Items.{pattern_of, condition_of, conditions_left};
ghost use Rattle.choice.specs.Judged.{entry_of};
ghost use Rattle.choice.specs.declared.Status.TheVariants.{Dead};
ghost use Rattle.cell.specs.Decide.{cell_of, status_of};

use crate::Cell;
use crate::items::{Condition, Conditions, Pattern};
use choice::Status;
use table::Entries;

impl Cell {
    // Whether it implies the pattern.
    pub(crate) fn implies(self, p: Pattern) -> bool
        ensures { result ≡ implies (cell_of self) (pattern_of p.entry) }
    {
        let mask = p.mask();
        self.fixed & mask == mask && self.bits & mask == p.value()
    }

    // Whether it clashes with the pattern.
    pub(crate) fn clashes(self, p: Pattern) -> bool
        ensures { result ≡ clashes (cell_of self) (pattern_of p.entry) }
    {
        let common = self.fixed & p.mask();
        self.bits & common != p.value() & common
    }

    // Whether the condition holds in it.
    pub(crate) fn holds(self, k: Condition) -> bool
        ensures { result ≡ holds (cell_of self) (condition_of k.entry) }
    {
        self.implies(k.matching()) && k.unmatching().all(|p| self.clashes(p))
    }

    // Whether the condition fails in it.
    pub(crate) fn fails(self, k: Condition) -> bool
        ensures { result ≡ fails (cell_of self) (condition_of k.entry) }
    {
        self.clashes(k.matching()) || k.unmatching().any(|p| self.implies(p))
    }

    // Whether one of the conditions holds in it.
    fn holds_one(self, mut conditions: Conditions) -> bool
        ensures { result ≡ any_of (holds (cell_of self)) (conditions_left conditions.entry) }
    {
        conditions.any(|k| self.holds(k))
    }

    // Whether each of the conditions fails in it.
    fn fails_all(self, mut conditions: Conditions) -> bool
        ensures { result ≡ all_of (fails (cell_of self)) (conditions_left conditions.entry) }
    {
        conditions.all(|k| self.fails(k))
    }

    // What the entry at p is in it.
    fn status(self, ws: &[u32], p: u32) -> Status
        ensures { result ≡ status_of (cell_of self) (entry_at ws.now p) }
    {
        let opcode = Pattern::at(ws, p as usize + 1);
        if self.clashes(opcode) {
            return Status::Dead;
        }
        let conditions = Conditions::of(ws, p);
        if self.holds_one(conditions) {
            return Status::Dead;
        }
        if !self.implies(opcode) {
            return Status::Open;
        }
        if self.fails_all(conditions) {
            Status::Sure
        } else {
            Status::Open
        }
    }
}

// What each of the entries is in a cell.
// kept: fixed memory: an array of 256, with the number in use beside
#[derive(Drop)]
pub struct Standing<'a> {
    pub entries: &'a Entries<'a>,
    pub cell: Cell,
    pub count: usize,
    pub statuses: &'a [Status; 256],
    ghost room: { length statuses.now ≡ 256 },
    ghost number: { count ≡ min entries.now.count 256 },
    ghost stated: { (j : ℕ) → j < count → get_or statuses.now j Dead ≡ status_of (cell_of cell) (entry_of entries.now j) },
}

impl<'a> Standing<'a> {
    // What each of the entries, 256 at most, is in the cell, in room that is lent: what a node costs is mostly here, and nothing is copied.
    pub fn of(entries: &'a Entries<'a>, cell: Cell, statuses: &'a mut [Status; 256]) -> Standing<'a>
        ensures { (result.entries.now ≡ entries.entry.now) × (result.cell ≡ cell) }
    {
        let count = entries.count.min(256);
        for j in 0..count {
            statuses[j] = cell.status(entries.words, entries.places[j]);
        }
        Standing {
            entries,
            cell,
            count,
            statuses,
        }
    }
}
