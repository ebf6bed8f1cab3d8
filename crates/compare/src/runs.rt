// The examples that document 01 runs, and what it prints.
use crate::says::say_refusal;
use crate::{first, tables};
use operands::Decoded;
use std::io;
use std::io::Write;

// An entry and its values, each after a space.
fn say_entry(output: &mut impl Write, entry: u32, values: &[u32]) -> io::Result<()> {
    write!(output, "entry {entry}, values")?;
    for value in values {
        write!(output, " {value}")?;
    }
    Ok(())
}

// What decoding says.
fn say_decoding(output: &mut impl Write, table: &[u32], w: u32) -> io::Result<()> {
    let mut values = [0u32; 8];
    match operands::decode(table, w, &mut values) {
        Ok(Some(Decoded { entry, count })) => say_entry(output, entry, first(&values, count))?,
        Ok(None) => write!(output, "nothing")?,
        Err(refusal) => say_refusal(output, refusal)?,
    }
    writeln!(output)
}

// What encoding says.
fn say_encoding(
    output: &mut impl Write,
    table: &[u32],
    entry: u32,
    values: &[u32],
) -> io::Result<()> {
    match operands::encode(table, entry, values) {
        Ok(word) => write!(output, "{word:08x}")?,
        Err(refusal) => say_refusal(output, refusal)?,
    }
    writeln!(output)
}

// What generating says.
fn say_generating(output: &mut impl Write, table: &[u32], room: &mut [u32]) -> io::Result<()> {
    match maker::generate(table, room) {
        Ok(count) => write!(output, "{count} words")?,
        Err(refusal) => say_refusal(output, refusal)?,
    }
    writeln!(output)
}

// What reading says.
fn say_reading(output: &mut impl Write, table: &[u32]) -> io::Result<()> {
    match table::read(table) {
        Ok(read) => write!(
            output,
            "width {}, entries {}",
            read.width, read.entries.count
        )?,
        Err(refusal) => say_refusal(output, refusal)?,
    }
    writeln!(output)
}

// A word of a table whose entries are all 0 at width 1, three words each.
fn many_word(head: u32, at: usize) -> u32 {
    if at == 0 {
        return head;
    }
    match at % 3 {
        1 => 0x20000100,
        2 => 1,
        _ => 0,
    }
}

// Fills a table with as many such entries as its words take.
fn fill_many(words: &mut [u32], head: u32) {
    for (at, word) in words.iter_mut().enumerate() {
        *word = many_word(head, at);
    }
}

// Document 01, Run: "256 entries pass, 257 give 1."
pub fn run_many(output: &mut impl Write) -> io::Result<()> {
    let mut most = [0u32; 769];
    fill_many(&mut most, 0x11000001);
    write!(output, "256 entries: ")?;
    say_reading(output, &most)?;
    let mut more = [0u32; 772];
    fill_many(&mut more, 0x11010001);
    write!(output, "257 entries: ")?;
    say_reading(output, &more)
}

// Document 01, Run: decoding and encoding with the worked table.
pub fn run_worked(output: &mut impl Write) -> io::Result<()> {
    write!(output, "0x36 decodes to ")?;
    say_decoding(output, &tables::TABLE_2, 0x36)?;
    write!(output, "A with 0, 0, 1: ")?;
    say_encoding(output, &tables::TABLE_2, 0, &[0, 0, 1])
}

// Document 01, Run: which trees fit. That 8 words take what 7 do not is that there are 7 nodes.
pub fn run_fit(output: &mut impl Write) -> io::Result<()> {
    let mut eight = [0u32; 8];
    write!(output, "0-- and --0 in 8 words: ")?;
    say_generating(output, &tables::TWO_ZEROS, &mut eight)?;
    let mut seven = [0u32; 7];
    write!(output, "0-- and --0 in 7 words: ")?;
    say_generating(output, &tables::TWO_ZEROS, &mut seven)
}

// Document 01, Run: "With 0-0 added", and 'Mistakes to exclude': "with 0-- and -00".
pub fn run_third(output: &mut impl Write) -> io::Result<()> {
    let mut room = [0u32; 8];
    write!(output, "with 0-0 added in 8 words: ")?;
    say_generating(output, &tables::WITH_THIRD, &mut room)?;
    write!(output, "its word 0: ")?;
    say_decoding(output, &tables::WITH_THIRD, 0)?;
    write!(output, "word 0 with 0-- and -00: ")?;
    say_decoding(output, &tables::MORE_BITS, 0)
}

// A tree's words, as mktree prints them.
fn say_tree(output: &mut impl Write, tree: &[u32]) -> io::Result<()> {
    for (index, word) in tree.iter().enumerate() {
        writeln!(output, "{index} {word:08x}")?;
    }
    Ok(())
}

// Document 01: the tree that it prints.
pub fn run_printed(output: &mut impl Write) -> io::Result<()> {
    let mut room = [0u32; 4];
    write!(output, "the printed table: ")?;
    say_generating(output, &tables::PRINTED, &mut room)?;
    say_tree(output, &room)
}
