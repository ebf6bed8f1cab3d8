// Selection: which entry of a table a word selects.
#![tactic(auto)]

ghost use Rattle.std.specs.Prelude.{◌≡◌, ℕ, ◌<◌, ◌^◌, min};
ghost use Rattle.words.specs.Tests.{any_of};
ghost use Rattle.table.specs.Table.{pattern_at, conditions_at, entry_at};
ghost use Rattle.table.specs.Check.{read_table};
ghost use Rattle.choice.specs.Rule.{matches as matches_of};
ghost use Rattle.choice.specs.Status.{Stated};
ghost use Rattle.choice.specs.Judged.{entry_of};
ghost use Rattle.selection.specs.Selection.{satisfied, claims as claims_of};
ghost use Rattle.selection.specs.Lookup.{said, look_of, Finds};
ghost use Rattle.selection.specs.Places.{status_for, Chosen, FindsAmong};

use choice::{Status, Verdict};
use table::Entries;
use words::Refusal;

// Whether a word matches the pattern at p.
// kept: the table's words and the word looked up side by side: as one struct, each clause below would name both by a field more.
fn matches(ws: &[u32], p: usize, word: u32) -> bool
    requires { p < 2 ^ 63 }
    ensures { result ≡ matches_of word (pattern_at ws.now p) }
{
    word & words::word_at(ws, p) == words::word_at(ws, p + 1)
}

// Whether some of the n conditions from p on is satisfied by a word. The search ends at the first one satisfied.
fn excluded(ws: &[u32], n: u32, p: usize, word: u32) -> bool
    requires { (n < 16) × (p < 2 ^ 40) }
    ensures { result ≡ any_of (satisfied word) (conditions_at ws.now n p) }
{
    // Equation 2 of document 001, s being the word: ⋁ over (p_m, P_u) ∈ C_e of (s ∈ p_m ∧ ⋀ over p_u ∈ P_u of s ∉ p_u).
    let mut found = false;
    let mut next = p;
    // The "or" over C_e, each condition being a pair (p_m, P_u).
    // kept: loops left by a label, the form that document 01 names for this search.
    'search: for _ in 0..n {
        let condition = next;
        // s ∈ p_m, asked before anything else of the condition.
        let matched = matches(ws, condition + 1, word);
        let unmatchings = words::part(words::word_at(ws, condition), 0, 4) as usize;
        // The next condition stands after the unmatching patterns of this one.
        next = condition + 3 + 3 * unmatchings;
        if !matched {
            continue 'search;
        }
        // The "and" over P_u.
        for u in 0..unmatchings {
            let unmatching = condition + 3 + 3 * u;
            // s ∈ p_u: the condition is not satisfied.
            if matches(ws, unmatching + 1, word) {
                continue 'search;
            }
        }
        // s ∉ p_u for every p_u: the condition is satisfied, and with it the "or".
        found = true;
        break 'search;
    }
    found
}

// Whether the entry at p claims a word.
fn claims(ws: &[u32], p: u32, word: u32) -> bool
    ensures { result ≡ claims_of word (entry_at ws.now p) }
{
    let conditions = words::part(words::word_at(ws, p as usize), 0, 4);
    matches(ws, p as usize + 1, word)
        && !excluded(ws, conditions, table::conditions_at(ws, p), word)
}

// What the entry at p is for a word: sure if it claims the word, else dead.
fn status_for(ws: &[u32], p: u32, word: u32) -> Status
    ensures { result ≡ status_for word (entry_at ws.now p) }
{
    if claims(ws, p, word) {
        Status::Sure
    } else {
        Status::Dead
    }
}

// What each of the entries, 256 at most, is for a word.
fn statuses(entries: &Entries, word: u32) -> [Status; 256]
    ensures { Stated (λ j. status_for word (entry_of entries.now j)) (min entries.now.count 256) result }
{
    // kept: fixed memory: an array of 256, as document 01 asks
    let mut s = [Status::Dead; 256];
    for k in 0..entries.count.min(256) {
        s[k] = status_for(entries.words, entries.places[k], word);
    }
    s
}

// An entry that a word selects, and its place.
#[derive(Clone, Copy, PartialEq, Eq)]
pub struct Found {
    pub entry: u32,
    pub place: u32,
}

// The choice among the entries, 256 at most.
fn choose(entries: &Entries, word: u32) -> Result<Option<Found>, Refusal>
    ensures { Chosen entries.now.words.now entries.now.places (min entries.now.count 256) word result }
{
    // kept: each case of the verdict is another answer
    let s = statuses(entries, word);
    match choice::judge(entries, &s) {
        Verdict::Names(i) => Ok(Some(Found {
            entry: i as u32,
            place: entries.places[i],
        })),
        Verdict::Nothing => Ok(None),
        Verdict::Stuck => Err(Refusal::Ambiguous(word)),
    }
}

// Looks a word up among the entries, 256 at most. Who has read the table need not read it again for each word.
pub fn find_among(entries: &Entries, width: u32, word: u32) -> Result<Option<Found>, Refusal>
    ensures { FindsAmong entries.now.words.now entries.now.places width (min entries.now.count 256) word result }
{
    if !words::fits(word, width) {
        return Err(Refusal::TooWide);
    }
    choose(entries, word)
}

// Looks a word up: the entry that it selects, and its place; or nothing; or why not: ambiguous, with the word (6), a bit at or above the
// width (7), or the table's first fault (1 to 4).
pub fn find(ws: &[u32], word: u32) -> Result<Option<Found>, Refusal>
    ensures { Finds ws.now word result }
{
    let table = table::read(ws)?;
    find_among(&table.entries, table.width, word)
}

// Looks a word up: the entry that it selects.
pub fn lookup(ws: &[u32], word: u32) -> Result<Option<u32>, Refusal>
    ensures { said result ≡ look_of (read_table ws.now) word }
{
    let found = find(ws, word)?;
    Ok(found.map(|f| f.entry))
}
