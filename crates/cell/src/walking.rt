// Walks over the patterns and conditions of an entry.
ghost use Rattle.std.specs.Prelude.{◌≡◌, ◌+◌, ◌<◌, ◌≤◌, ◌^◌};
ghost use Rattle.std.specs.Iterator.{YieldsFirstBy, item_count};
ghost use Rattle.table.specs.Table.{pattern_at, entry_at, unmatching_of, conditions_at, conditions_place, condition_end};
ghost use Rattle.cell.specs.Items.{pattern_of, patterns_left, condition_of, conditions_left};

use crate::items::{Condition, Conditions, Pattern, Patterns};

impl<'a> Pattern<'a> {
    // The pattern at p.
    pub fn at(ws: &'a [u32], p: usize) -> Pattern<'a>
        requires { p < 2 ^ 63 }
        ensures { pattern_of result ≡ pattern_at ws.entry.now p }
    {
        Pattern { words: ws, at: p }
    }

    pub fn mask(self) -> u32
        ensures { result ≡ (pattern_of self.entry).mask }
    {
        words::word_at(self.words, self.at)
    }

    pub fn value(self) -> u32
        ensures { result ≡ (pattern_of self.entry).value }
    {
        words::word_at(self.words, self.at + 1)
    }
}

impl<'a> Iterator for Patterns<'a> {
    type Item = Pattern<'a>;

    ghost next_gives = { YieldsFirstBy pattern_of patterns_left };

    ghost remaining = { item_count patterns_left };

    fn next(&mut self) -> Option<Pattern<'a>> {
        if self.left < 1 {
            return None;
        }
        let first = Pattern::at(self.words, self.at + 1);
        self.left -= 1;
        self.at += 3;
        Some(first)
    }
}

// Bits 3 to 0 of a head word: how many conditions, or unmatching patterns, follow.
fn followers(head: u32) -> usize
    ensures { (result ≡ unmatching_of head) × (result ≤ 15) }
{
    words::part(head, 0, 4) as usize
}

impl<'a> Condition<'a> {
    // Its matching pattern.
    pub fn matching(self) -> Pattern<'a>
        ensures { pattern_of result ≡ (condition_of self.entry).matching }
    {
        Pattern::at(self.words, self.at + 1)
    }

    // Its unmatching patterns.
    pub fn unmatching(self) -> Patterns<'a>
        ensures { patterns_left result ≡ (condition_of self.entry).unmatching }
    {
        Patterns {
            words: self.words,
            at: self.at + 3,
            left: followers(words::word_at(self.words, self.at)),
        }
    }
}

// The place of the first of the n conditions of the entry at p. It is not looked up where there are none, as most entries have none.
fn first_place(ws: &[u32], p: u32, n: usize) -> usize
    ensures place { conditions_at ws.now n result ≡ conditions_at ws.now n (conditions_place ws.now p) }
    ensures near { result ≤ p + 19 }
{
    if n < 1 {
        return 0;
    }
    table::conditions_at(ws, p)
}

// The place after the condition at p, from which n more stand. It is not looked up where there are none.
fn place_after(ws: &[u32], p: usize, n: usize) -> usize
    requires { p < 2 ^ 62 }
    ensures place { conditions_at ws.now n result ≡ conditions_at ws.now n (condition_end ws.now p) }
    ensures near { result ≤ p + 48 }
{
    if n < 1 {
        return p;
    }
    p + (3 + 3 * followers(words::word_at(ws, p)))
}

impl<'a> Conditions<'a> {
    // Those of the entry at p.
    pub fn of(ws: &'a [u32], p: u32) -> Conditions<'a>
        ensures { conditions_left result ≡ (entry_at ws.now p).conditions }
    {
        let left = followers(words::word_at(ws, p as usize));
        Conditions {
            words: ws,
            at: first_place(ws, p, left),
            left,
        }
    }
}

impl<'a> Iterator for Conditions<'a> {
    type Item = Condition<'a>;

    ghost next_gives = { YieldsFirstBy condition_of conditions_left };

    ghost remaining = { item_count conditions_left };

    fn next(&mut self) -> Option<Condition<'a>> {
        if self.left < 1 {
            return None;
        }
        let first = Condition {
            words: self.words,
            at: self.at,
        };
        let left = self.left - 1;
        self.at = place_after(self.words, self.at, left);
        self.left = left;
        Some(first)
    }
}
