// Decoding and encoding of operand fields.
#![tactic(auto)]

ghost use Rattle.std.specs.Prelude.{◌≡◌, ℕ, ◌≤◌, ◌<◌, ◌^◌, length};
ghost use Rattle.std.proofs.lemmas.List.Edits.{sets};
ghost use Rattle.words.specs.Outcome.{said};
ghost use Rattle.table.specs.Table.{fields_at};
ghost use Rattle.table.specs.Check.{read_table};
ghost use Rattle.selection.specs.Lookup.{look_of};
ghost use Rattle.operands.specs.Fields.{values_in};
ghost use Rattle.operands.specs.Calls.{encode_of};
ghost use Rattle.operands.specs.Answers.{Decodes, InWord, makes, said_encode, confirmed};

use table::Table;
use words::Refusal;

// Writes the values of the n fields from p on to the first words of a buffer.
fn take_out(ws: &[u32], p: usize, n: usize, word: u32, out: &mut [u32])
    requires { (p < 2 ^ 40) × (n ≤ length out.old) }
    ensures { out.new ≡ sets out.old 0 (values_in (fields_at ws.now n p) word) }
{
    // kept: one bound of one number, so that a sum does not wrap
    for k in 0..n {
        let field = words::word_at(ws, p + k);
        out[k] = words::part(word, words::part(field, 8, 8), words::part(field, 0, 8));
    }
}

// An entry that a word selects, and the number of its fields, whose values are in the first words of the buffer.
#[derive(Clone, Copy, PartialEq, Eq)]
pub struct Decoded {
    pub entry: u32,
    pub count: u32,
}

// Decodes a word: the selected entry, and its fields' values in the first words of the buffer; or nothing; or why not: a buffer under 8
// words (10), a bit at or above the width (7), ambiguous, with the word (6), or the table's first fault (1 to 4).
pub fn decode(ws: &[u32], word: u32, out: &mut [u32]) -> Result<Option<Decoded>, Refusal>
    ensures { Decodes ws.now word out.old out.new result }
{
    if out.len() < 8 {
        // The table's fault comes before the buffer's.
        table::read(ws)?;
        return Err(Refusal::ShortBuffer);
    }
    let Some(found) = selection::find(ws, word)? else {
        return Ok(None);
    };
    let count = words::part(words::word_at(ws, found.place as usize), 4, 4);
    take_out(
        ws,
        table::fields_at(ws, found.place),
        count as usize,
        word,
        out,
    );
    Ok(Some(Decoded {
        entry: found.entry,
        count,
    }))
}

// Places each value in its field: the word made, or the index of the first value that does not fit (12).
fn put_in(ws: &[u32], p: usize, opcode: u32, values: &[u32]) -> Result<u32, Refusal>
    requires { (p < 2 ^ 40) × (length values.now < 2 ^ 32) × InWord (fields_at ws.now (length values.now) p) }
    ensures { said result ≡ makes 0 opcode (fields_at ws.now (length values.now) p) values.now }
{
    // kept: one bound of one number, so that a sum does not wrap
    let mut w = opcode;
    for (k, value) in values.iter().enumerate() {
        let field = words::word_at(ws, p + k);
        if !words::fits(*value, words::part(field, 0, 8)) {
            return Err(Refusal::Misfit(k as u32));
        }
        w |= *value << words::part(field, 8, 8);
    }
    Ok(w)
}

// A word made for an entry, if it selects that entry.
fn confirm(table: &Table, entry: u32, w: u32) -> Result<u32, Refusal>
    ensures { said result ≡ confirmed (look_of (read_table table.now.entries.words.now) w) entry w }
{
    match selection::find_among(&table.entries, table.width, w) {
        Ok(Some(found)) if found.entry == entry => Ok(w),
        _ => Err(Refusal::NotSelected(w)),
    }
}

// Encodes an entry with the values of its fields: the word; or why not: no such entry or a wrong count of values (11), a value that does
// not fit its field, with its index (12), a word that does not select the entry, with that word (13), or the table's first fault (1 to 4).
pub fn encode(ws: &[u32], entry: u32, values: &[u32]) -> Result<u32, Refusal>
    ensures { said_encode result ≡ encode_of (read_table ws.now) entry values.now }
{
    let table = table::read(ws)?;
    if table.entries.count <= entry as usize {
        return Err(Refusal::NoEntry);
    }
    let p = table.entries.places[entry as usize];
    let n = words::part(words::word_at(ws, p as usize), 4, 4) as usize;
    if values.len() != n {
        return Err(Refusal::NoEntry);
    }
    let opcode = words::word_at(ws, p as usize + 2);
    let w = put_in(ws, table::fields_at(ws, p), opcode, values)?;
    confirm(&table, entry, w)
}
