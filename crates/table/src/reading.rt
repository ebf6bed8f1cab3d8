// Reading a table, in the order of its words. Each check says its fault and the fault's place, or goes on.
ghost use Rattle.std.specs.Prelude.{◌≡◌, ◌+◌, ◌≤◌, ◌<◌, true, eqb, length, IfOk, bit_or};
ghost use Rattle.words.specs.Tests.{◌or◌};
ghost use Rattle.words.specs.Words.{word};
ghost use Rattle.words.specs.Outcome.{number_of};
ghost use Rattle.words.specs.declared.Refusal.TheVariants.{Faulty};
ghost use Rattle.table.specs.Table.{kind_of, field_low, field_width, field_bits, own_bits, condition_end, conditions_end, fields_place, entry_end};
ghost use Rattle.table.specs.Check.{need, has, pattern_check, unmatching_check, unmatchings_check, condition_check, conditions_check, spare_clear, form_fits, field_word, field_rule, field_check, fields_check, head_check, cycles_check, entry_check, entries_check, first_check};
ghost use Rattle.table.specs.Answer.{checked, fault_number, said_fault, Placed, Reads};

use crate::{Entries, Table, fields_at, has_cycles};
use words::{Fault, Kind, Refusal};

// A fault and the index of its word.
// kept: the fault beside its place is the error itself
#[derive(Clone, Copy)]
struct Flaw {
    fault: Fault,
    place: u32,
}

impl From<Flaw> for Refusal {
    ghost from_gives = { λ flaw refusal. refusal ≡ Faulty flaw.fault flaw.place };

    fn from(flaw: Flaw) -> Refusal {
        Refusal::Faulty(flaw.fault, flaw.place)
    }
}

// The fault at a place, unless the test holds.
fn need(holds: bool, fault: Fault, place: u32) -> Result<(), Flaw>
    ensures check { checked result ≡ need holds (number_of fault) place }
    ensures met { IfOk result (λ _. holds ≡ true) }
{
    // kept: the flag is the test itself, and no switch
    if holds {
        return Ok(());
    }
    Err(Flaw { fault, place })
}

// The words of a table that is read, and the width that its first word gives.
#[derive(Clone, Copy)]
struct Reader<'a> {
    ws: &'a [u32],
    width: u32,
    ghost small: { (length ws.now ≤ 16384) × (width ≤ 32) },
}

impl<'a> Reader<'a> {
    // That the n words from p on are there; else the table ends early.
    fn has(&self, p: u32, n: u32) -> Result<(), Flaw>
        ensures check { checked result ≡ has self.now.ws.now p n }
        ensures fits { IfOk result (λ _. p + n ≤ length self.now.ws.now) }
    {
        let end = p as u64 + n as u64;
        need(
            end <= self.ws.len() as u64,
            Fault::Structure,
            self.ws.len() as u32,
        )
    }

    // The word at an index.
    fn word(&self, p: u32) -> u32
        ensures { result ≡ word self.now.ws.now p }
    {
        words::word_at(self.ws, p as usize)
    }

    // Mask and value at p.
    fn pattern(&self, own: u32, p: u32) -> Result<(), Flaw>
        ensures { checked result ≡ pattern_check self.now.ws.now own p }
    {
        self.has(p, 2)?;
        let mask = self.word(p);
        let value = self.word(p + 1);
        need(own & mask == mask, Fault::Pattern, p)?;
        need(mask & value == value, Fault::Pattern, p)
    }

    // An unmatching pattern at p: head word, mask, value.
    fn unmatching(&self, own: u32, p: u32) -> Result<(), Flaw>
        ensures { checked result ≡ unmatching_check self.now.ws.now own p }
    {
        self.has(p, 1)?;
        let w = self.word(p);
        need(Kind::Unmatching.is_of(w), Fault::Structure, p)?;
        need(words::part(w, 0, 28) == 0, Fault::Structure, p)?;
        self.pattern(own, p + 1)
    }

    // The n unmatching patterns from p on.
    fn unmatchings(&self, own: u32, n: u32, p: u32) -> Result<(), Flaw>
        ensures { checked result ≡ unmatchings_check self.now.ws.now own n p }
    {
        // kept: the place goes on by three; `p + 3 * k` would ask for a bound on p that no check needs
        let mut at = p;
        'patterns: for _ in 0..n {
            self.unmatching(own, at)?;
            at += 3;
        }
        Ok(())
    }

    // A condition at p: head word, matching pattern, unmatching patterns; on to its end.
    fn condition(&self, own: u32, p: u32) -> Result<u32, Flaw>
        ensures check { checked result ≡ condition_check self.now.ws.now own p }
        ensures end { IfOk result (λ q. q ≡ condition_end self.now.ws.now p) }
    {
        self.has(p, 1)?;
        let w = self.word(p);
        let n = words::part(w, 0, 4);
        need(Kind::Condition.is_of(w), Fault::Structure, p)?;
        need(words::part(w, 4, 24) == 0, Fault::Structure, p)?;
        need(n <= 8, Fault::Structure, p)?;
        self.pattern(own, p + 1)?;
        self.unmatchings(own, n, p + 3)?;
        Ok(p + 3 + 3 * n)
    }

    // The n conditions from p on; on to their end.
    fn conditions(&self, own: u32, n: u32, p: u32) -> Result<u32, Flaw>
        ensures check { checked result ≡ conditions_check self.now.ws.now own n p }
        ensures end { IfOk result (λ q. q ≡ conditions_end self.now.ws.now n p) }
    {
        let mut at = p;
        'each: for _ in 0..n {
            at = self.condition(own, at)?;
        }
        Ok(at)
    }

    // The bits of a field's word at p, in an entry of size bits: some, in the own bits, and none of them used.
    fn field_rule(&self, size: u32, used: u32, w: u32, p: u32) -> Result<(), Flaw>
        ensures { checked result ≡ field_rule self.now.width size used w p }
    {
        let count = words::part(w, 0, 8);
        let low = words::part(w, 8, 8);
        need(1 <= count, Fault::Field, p)?;
        need(self.width.saturating_sub(size) <= low, Fault::Field, p)?;
        need(low + count <= self.width, Fault::Field, p)?;
        need(used & field_bits(w) == 0, Fault::Field, p)
    }

    // A field at p of an entry of size bits; on with the bits used by then.
    fn field(&self, size: u32, used: u32, p: u32) -> Result<u32, Flaw>
        ensures check { checked result ≡ field_check self.now.ws.now self.now.width size used p }
        ensures used { IfOk result (λ u. u ≡ bit_or used (field_bits (word self.now.ws.now p))) }
    {
        self.has(p, 1)?;
        let w = self.word(p);
        if let Err(fault) = field_fault(w) {
            return Err(Flaw { fault, place: p });
        }
        self.field_rule(size, used, w, p)?;
        Ok(used | field_bits(w))
    }

    // The n fields from p on of the entry at e, and after the last one the cover.
    fn fields(&self, e: u32, size: u32, opcode: u32, n: u32, p: u32) -> Result<(), Flaw>
        requires { size ≤ self.now.width }
        ensures { checked result ≡ fields_check self.now.ws.now e self.now.width size opcode n p }
    {
        let mut used = opcode;
        // kept: the place goes on by one, as in `unmatchings`
        let mut at = p;
        'fields: for _ in 0..n {
            used = self.field(size, used, at)?;
            at += 1;
        }
        need(used == own_bits(self.width, size), Fault::Field, e)
    }

    // The head word of an entry at p.
    fn head(&self, p: u32) -> Result<(), Flaw>
        ensures { checked result ≡ head_check self.now.ws.now self.now.width p }
    {
        self.has(p, 1)?;
        let w = self.word(p);
        let size = words::part(w, 8, 8);
        need(Kind::Entry.is_of(w), Fault::Structure, p)?;
        need(1 <= size, Fault::Structure, p)?;
        need(size <= self.width, Fault::Structure, p)?;
        need(words::part(w, 4, 4) <= 8, Fault::Structure, p)?;
        need(words::part(w, 0, 4) <= 8, Fault::Structure, p)
    }

    // The cycles word of the entry at p, where the table has them.
    fn cycles(&self, p: u32) -> Result<(), Flaw>
        requires { p + 3 ≤ length self.now.ws.now }
        ensures { checked result ≡ cycles_check self.now.ws.now p }
    {
        let place = p + 3;
        if !has_cycles(self.ws) {
            return Ok(());
        }
        self.has(place, 1)?;
        need(self.word(place) <= 65535, Fault::Structure, place)
    }

    // An entry at p: head word, opcode pattern, cycles, fields, conditions; on to its end.
    fn entry(&self, p: u32) -> Result<u32, Flaw>
        ensures check { checked result ≡ entry_check self.now.ws.now self.now.width p }
        ensures end { IfOk result (λ q. q ≡ entry_end self.now.ws.now p) }
    {
        self.head(p)?;
        let w = self.word(p);
        let size = words::part(w, 8, 8);
        let own = own_bits(self.width, size);
        self.pattern(own, p + 1)?;
        self.cycles(p)?;
        let first = fields_at(self.ws, p) as u32;
        let n = words::part(w, 4, 4);
        self.fields(p, size, self.word(p + 1), n, first)?;
        self.conditions(own, words::part(w, 0, 4), first + n)
    }

    // The places of the n entries of a table, if no word is faulty or left over.
    fn entries(&self, n: usize) -> Result<[u32; 256], Flaw>
        requires { n ≤ 256 }
        ensures check { checked result ≡ entries_check self.now.ws.now self.now.width n 1 }
        ensures places { IfOk result (λ places. Placed self.now.ws.now n places) }
    {
        // kept: fixed memory: an array of 256, as document 01 asks
        let mut at = [0u32; 256];
        let mut p = 1;
        for k in 0..n {
            at[k] = p;
            p = self.entry(p)?;
        }
        need(self.ws.len() <= p as usize, Fault::Structure, p)?;
        Ok(at)
    }
}

// The own bits of an entry of size bits.
fn own_bits(width: u32, size: u32) -> u32
    requires { (size ≤ width) × (width ≤ 32) }
    ensures { result ≡ own_bits width size }
{
    // kept: one bound of one number
    words::run(width - size, size)
}

// The bits of a field's word, which are some: two shifts, where `run` would ask twice whether they end.
fn field_bits(w: u32) -> u32
    requires { (0 < field_width w) × (field_low w + field_width w ≤ 32) }
    ensures { result ≡ field_bits w }
{
    // kept: two bounds of one number each
    let low = words::part(w, 8, 8);
    let count = words::part(w, 0, 8);
    (0xffff_ffff >> (32 - count)) << low
}

// Whether a field's word has no spare bit set: bits 23-16 are spare for every form but 2.
fn spare_clear(w: u32) -> bool
    ensures { result ≡ spare_clear w }
{
    if words::part(w, 24, 4) == 2 {
        return true;
    }
    words::part(w, 16, 8) == 0
}

// Whether a field's word has a form, and no more fraction bits than 16 and than its width.
fn form_fits(w: u32) -> bool
    ensures { result ≡ form_fits w }
{
    let fraction = words::part(w, 16, 8);
    let width = words::part(w, 0, 8);
    if 2 < words::part(w, 24, 4) {
        return false;
    }
    if 16 < fraction {
        return false;
    }
    fraction <= width
}

// Bits 31-16 of a plain field's word: kind 3, and no other bit.
const PLAIN: u32 = 0x3000;

// The fault of a field's word by itself, if it has one. Most fields are plain, and plain words have none.
pub fn field_fault(w: u32) -> Result<(), Fault>
    ensures { said_fault result ≡ fault_number (field_word w 0) }
{
    if words::part(w, 16, 16) == PLAIN {
        return Ok(());
    }
    if !Kind::Field.is_of(w) {
        return Err(Fault::Structure);
    }
    if !spare_clear(w) {
        return Err(Fault::Structure);
    }
    if !form_fits(w) {
        return Err(Fault::Field);
    }
    Ok(())
}

// Whether a table may begin with a word, by its kind.
fn is_first(w: u32) -> bool
    ensures { result ≡ eqb (kind_of w) 1 or eqb (kind_of w) 6 }
{
    Kind::Table.is_of(w) || Kind::TableWithCycles.is_of(w)
}

// Length and first word.
fn first_word(ws: &[u32]) -> Result<(), Flaw>
    ensures { checked result ≡ first_check ws.now }
{
    need(1 <= ws.len(), Fault::FirstWord, 0)?;
    need(ws.len() <= 16384, Fault::FirstWord, 0)?;
    let w = words::word_at(ws, 0);
    let width = words::part(w, 0, 8);
    need(is_first(w), Fault::FirstWord, 0)?;
    need(words::part(w, 8, 8) == 0, Fault::FirstWord, 0)?;
    need(words::part(w, 16, 12) <= 256, Fault::FirstWord, 0)?;
    need(1 <= width, Fault::FirstWord, 0)?;
    need(width <= 32, Fault::FirstWord, 0)
}

// Reads a table.
pub fn read(ws: &[u32]) -> Result<Table<'_>, Refusal>
    ensures { Reads ws.entry.now result }
{
    first_word(ws)?;
    let w = words::word_at(ws, 0);
    let width = words::part(w, 0, 8);
    let count = words::part(w, 16, 12) as usize;
    let places = Reader { ws, width }.entries(count)?;
    let entries = Entries {
        words: ws,
        places,
        count,
    };
    Ok(Table { entries, width })
}
