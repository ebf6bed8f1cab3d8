// What a cell is settled as, and the bit to test in one that is not: step 4.
ghost use Rattle.std.specs.Prelude.{◌≡◌, not, ℕ, ◌≤◌, ◌<◌, length};
ghost use Rattle.words.specs.Tests.{◌and◌, any_of, exists, best};
ghost use Rattle.words.specs.Words.{bit};
ghost use Rattle.table.specs.Table.{entry_at};
ghost use Rattle.choice.specs.Judged.{said_verdict};
ghost use Rattle.cell.specs.Cell.{open_condition};
ghost use Rattle.cell.specs.Step.{in_condition, in_open, votes_at, settled_at, tested_at};
ghost use Rattle.cell.specs.Items.{condition_of};
ghost use Rattle.cell.specs.Decide.{cell_of, weight_of, Heaviest, in_some, unfixed_in};
ghost use Rattle.cell.specs.Opened.{entry_in, opened};

use crate::Cell;
use crate::items::{Condition, Conditions, Pattern};
use crate::standing::Standing;
use choice::{Status, Verdict};

// How many of the masks have bit i; 0 if it is fixed.
fn weigh(masks: &[u32], fixed: u32, i: u32) -> u32
    requires { (length masks.now ≤ 256) × (i < 32) }
    ensures { result ≡ weight_of masks.now fixed i }
{
    // kept: no vote is a number of votes, and no failure
    if (fixed >> i) & 1 == 1 {
        return 0;
    }
    let mut votes = 0;
    for mask in masks {
        votes += (*mask >> i) & 1;
    }
    votes
}

// The unfixed bit that most masks have, the highest on a tie; none if no mask has one.
fn heaviest(masks: &[u32], width: u32, fixed: u32) -> Option<u32>
    requires { (length masks.now ≤ 256) × (width ≤ 32) }
    ensures { Heaviest (weight_of masks.now fixed) width result }
{
    // kept: one bound of one number
    if masks.is_empty() {
        return None;
    }
    let mut bit = 0;
    let mut weight = weigh(masks, fixed, 0);
    for i in 1..width {
        let other = weigh(masks, fixed, i);
        if weight <= other {
            bit = i;
            weight = other;
        }
    }
    if 0 < weight { Some(bit) } else { None }
}

// Whether bit i is unfixed and in the mask.
fn is_unfixed(mask: u32, fixed: u32, i: u32) -> bool
    requires { i < 32 }
    ensures { result ≡ bit mask i and not (bit fixed i) }
{
    (mask >> i) & 1 == 1 && (fixed >> i) & 1 != 1
}

// The highest unfixed bit of a mask below the width; the last bit below the width if there is none.
fn highest(mask: u32, width: u32, fixed: u32) -> u32
    requires { width ≤ 32 }
    ensures { result ≡ best (unfixed_in mask fixed) width }
{
    // kept: one bound of one number; it answers the last bit where it finds none
    for i in (0..width).rev() {
        if is_unfixed(mask, fixed, i) {
            return i;
        }
    }
    width.saturating_sub(1)
}

impl<'a> Condition<'a> {
    // The bits in its patterns.
    fn bits(self) -> u32
        ensures { (i : ℕ) → bit result i ≡ in_condition i (condition_of self.entry) }
    {
        let matching = self.matching().mask();
        self.unmatching()
            .fold(matching, |found, p| found | p.mask())
    }
}

impl Cell {
    // The bits in the patterns of a condition that is open in it; no bit for any other.
    fn open_bits(self, k: Condition) -> u32
        ensures { (i : ℕ) → bit result i ≡ open_condition (cell_of self) (condition_of k.entry) and in_condition i (condition_of k.entry) }
    {
        // kept: no bit is a set of bits, and no failure
        if self.holds(k) || self.fails(k) {
            0
        } else {
            k.bits()
        }
    }

    // The same for the conditions of the entry at p.
    fn entry_bits(self, ws: &[u32], p: u32) -> u32
        ensures { (i : ℕ) → bit result i ≡ in_open (cell_of self) i (entry_at ws.now p) }
    {
        Conditions::of(ws, p).fold(0, |found, k| found | self.open_bits(k))
    }
}

impl<'a> Standing<'a> {
    // What it settles.
    pub fn verdict(&self) -> Verdict
        ensures { said_verdict result ≡ settled_at (entry_in self.now) self.now.count (cell_of self.now.cell) }
    {
        choice::judge(self.entries, self.statuses)
    }

    // Whether one of the entries is open.
    pub fn any_open(&self) -> bool
        ensures { result ≡ exists (opened self.now) self.now.count }
    {
        let statuses = self.statuses;
        statuses[..self.count].contains(&Status::Open)
    }

    // The unfixed bit in the opcode masks of the most open entries, the highest on a tie; none if no such mask has an unfixed bit.
    fn most_wanted(&self, width: u32) -> Option<u32>
        requires { width ≤ 32 }
        ensures { Heaviest (votes_at (entry_in self.now) (opened self.now) self.now.count self.now.cell.fixed) width result }
    {
        let fixed = self.cell.fixed;
        // kept: the masks stand in an array with their number beside it, since the libraries have no heap
        let mut masks = [0u32; 256];
        let mut n = 0;
        for j in 0..self.count {
            let status = self.statuses[j];
            if status == Status::Open {
                let opcode = Pattern::at(self.entries.words, self.entries.places[j] as usize + 1);
                let mask = opcode.mask();
                if fixed & mask != mask {
                    masks[n] = mask;
                    n += 1;
                }
            }
        }
        heaviest(&masks[..n], width, fixed)
    }

    // The bits in any pattern of an open condition of an open entry.
    fn all_bits(&self) -> u32
        ensures { (i : ℕ) → bit result i ≡ in_some (entry_in self.now) (opened self.now) self.now.count (cell_of self.now.cell) i }
    {
        let mut found = 0;
        for j in 0..self.count {
            let status = self.statuses[j];
            if status == Status::Open {
                found |= self
                    .cell
                    .entry_bits(self.entries.words, self.entries.places[j]);
            }
        }
        found
    }

    // The bit to test in the cell.
    pub fn bit_to_test(&self, width: u32) -> u32
        requires { width ≤ 32 }
        ensures { (result ≡ tested_at (entry_in self.now) (opened self.now) self.now.count width (cell_of self.now.cell)) × (result < 32) }
    {
        // kept: one bound of one number
        match self.most_wanted(width) {
            Some(bit) => bit,
            None => highest(self.all_bits(), width, self.cell.fixed),
        }
    }
}
