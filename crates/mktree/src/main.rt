// Reads a table from standard input and prints its tree, or why there is none. The libraries decide
// what a table is, what its tree is and how a line is written. A read or a write that fails ends the
// program with its error.
// kept: room of a fixed size, as the libraries have it: a program that asked for memory could be refused it, for which no paper has a line.
#![tactic(auto)]

use std::io;
use std::io::Write;
use streams::Pages;
use words::Cause;

// The most that is taken from standard input.
const MOST_BYTES: usize = 65536;

// The words of the largest table, and of the largest tree.
const MOST_WORDS: usize = 16384;

// Prints the line of a refusal.
fn print_refusal(output: &mut impl Write, cause: Cause) -> io::Result<()> {
    let mut line = [0u8; 64];
    let end = text::put_refusal(&mut line, 0, cause);
    streams::write(output, &line[..end])
}

// Prints the first words of a tree, a line for each, and never more than there are.
fn print_tree(output: &mut impl Write, words: &[u32], count: u32) -> io::Result<()> {
    let mut room = streams::page();
    let mut pages = Pages::new(output, &mut room);
    for (index, word) in (0..count).zip(words) {
        let mut line = [0u8; 20];
        let end = text::put_tree_line(&mut line, 0, index, *word);
        pages.put(&line[..end])?;
    }
    pages.flush()
}

// Prints the tree of a table.
fn print_tree_of(output: &mut impl Write, table: &[u32]) -> io::Result<()> {
    let mut words = [0u32; MOST_WORDS];
    match maker::generate(table, &mut words) {
        Ok(count) => print_tree(output, &words, count),
        Err(refusal) => print_refusal(output, Cause::from(refusal)),
    }
}

fn main(rt: HostRuntime) -> io::Result<()> {
    // one byte more, to see that there is more
    let mut bytes = [0u8; MOST_BYTES + 1];
    let got = streams::fill(&mut rt.stdin(), &mut bytes)?;
    let mut space = [0u32; MOST_WORDS];
    if !words::is_table(&bytes[..got]) {
        // bytes that can't be a table are refused as one without words is
        return print_tree_of(&mut rt.stdout(), &space[..0]);
    }
    let n = words::words_of(&bytes[..got], &mut space);
    print_tree_of(&mut rt.stdout(), &space[..n])
}
