// The most-specific rule: which of the entries that are live in a cell decides it. A word is the cell that fixes every bit.
#![tactic(auto)]

ghost use Rattle.std.specs.Prelude.{◌≡◌, ◌↔◌, ℕ, ◌≤◌, ◌<◌, min, length, IsTrue, not, eqb};
ghost use Rattle.choice.specs.Rule.{more_specific, gives_way, beats_at, judge_at};
ghost use Rattle.choice.specs.Status.{is_sure, is_live, sure_in, live_in};
ghost use Rattle.choice.specs.Judged.{entry_of, said_verdict, FirstLive, Leads};

use table::Entries;

// What an entry is in a cell. Live means sure or open.
#[derive(Clone, Copy, PartialEq, Eq)]
pub enum Status {
    Dead,
    Sure,
    Open,
}

// For who holds statuses as numbers: whatever the number, it stands for one. 0 is dead, 1 is sure, every other is open.
impl From<u8> for Status {
    ghost from_gives = { λ n s. (is_sure s ≡ eqb n 1) × (is_live s ≡ not (eqb n 0)) };

    fn from(n: u8) -> Status {
        // kept: the one place of these numbers
        match n {
            0 => Status::Dead,
            1 => Status::Sure,
            _ => Status::Open,
        }
    }
}

// What the statuses settle: an entry, by step 1; nothing, by step 2; or neither.
// kept: the cases of the definition's Choice, one for one
#[derive(Clone, Copy, PartialEq, Eq)]
pub enum Verdict {
    Names(usize),
    Nothing,
    Stuck,
}

// The entries among which one is chosen, and what each of them is.
#[derive(Clone, Copy)]
struct Contest<'a> {
    entries: &'a Entries<'a>,
    statuses: &'a [Status],
    ghost few: { length statuses.now ≤ 256 },
}

impl<'a> Contest<'a> {
    // Whether entry i is more specific than entry j.
    fn more_specific(&self, i: usize, j: usize) -> bool
        requires { (i < 256) × (j < 256) }
        ensures { result ≡ more_specific (entry_of self.now.entries.now i) (entry_of self.now.entries.now j) }
    {
        let ws = self.entries.words;
        let opcode = self.entries.places[i] as usize + 1;
        let other = self.entries.places[j] as usize + 1;
        let mask = words::word_at(ws, opcode);
        let less = words::word_at(ws, other);
        if mask & less != less {
            return false;
        }
        if mask == less {
            return false;
        }
        words::word_at(ws, opcode + 1) & less == words::word_at(ws, other + 1)
    }

    // The first entry that is live.
    fn first_live(&self) -> Option<usize>
        ensures { FirstLive (live_in self.now.statuses.now) (length self.now.statuses.now) result }
    {
        self.statuses.iter().position(|x| *x != Status::Dead)
    }

    // The only entry that can win. Each live entry after the first takes the lead if it is more specific than the leader:
    // one that is more specific than every other live one takes it when its turn comes, and nobody takes it back.
    fn leader(&self, start: usize) -> usize
        requires { FirstLive (live_in self.now.statuses.now) (length self.now.statuses.now) (Some start) }
        ensures { Leads (entry_of self.now.entries.now) (live_in self.now.statuses.now) (length self.now.statuses.now) result }
    {
        let mut lead = start;
        for k in start + 1..self.statuses.len() {
            if self.statuses[k] != Status::Dead && self.more_specific(k, lead) {
                lead = k;
            }
        }
        lead
    }

    // Whether entry j is i, or dead, or less specific than i.
    fn gives_way(&self, i: usize, j: usize) -> bool
        requires { (i < length self.now.statuses.now) × (j < length self.now.statuses.now) }
        ensures { result ≡ gives_way (entry_of self.now.entries.now) (live_in self.now.statuses.now) i j }
    {
        j == i || self.statuses[j] == Status::Dead || self.more_specific(i, j)
    }

    // Whether entry i is more specific than every other live one.
    fn beats(&self, i: usize) -> bool
        requires { i < length self.now.statuses.now }
        ensures { IsTrue result ↔ ((j : ℕ) → j < length self.now.statuses.now
            → IsTrue (gives_way (entry_of self.now.entries.now) (live_in self.now.statuses.now) i j)) }
    {
        (0..self.statuses.len()).all(|j| self.gives_way(i, j))
    }
}

// What the statuses of the entries settle.
pub fn judge(entries: &Entries, s: &[Status; 256]) -> Verdict
    ensures { said_verdict result ≡ judge_at (entry_of entries.now) (sure_in s.now) (live_in s.now) (min entries.now.count 256) }
{
    let contest = Contest {
        entries,
        statuses: &s[..entries.count.min(256)],
    };
    let Some(start) = contest.first_live() else {
        return Verdict::Nothing;
    };
    let lead = contest.leader(start);
    if contest.statuses[lead] != Status::Sure {
        return Verdict::Stuck;
    }
    if contest.beats(lead) {
        return Verdict::Names(lead);
    }
    Verdict::Stuck
}
