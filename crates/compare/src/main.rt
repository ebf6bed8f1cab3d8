// Compares the libraries with another decoder, on every table of document 01's examples and of the
// public papers, and runs the examples. The output is fixed in `stdout`, so that a difference fails
// the check. A write that fails ends the program with its error.
// kept: room of a fixed size, as the libraries have it: a program that asked for memory could be refused it, for which no paper has a line.
#![tactic(auto)]

use operands::Decoded;
use others::{Named, Source};
use says::say_refusal;
use std::io;
use std::io::Write;
use words::Refusal;

mod images;
mod others;
mod paths;
mod runs;
mod says;
mod tables;

// More than the largest tree here has.
const TREE_ROOM: usize = 512;

// A table of a paper, with the other decoder of its words, and how many of these are compared.
#[derive(Clone, Copy)]
struct Case {
    name: &'static str,
    source: Source,
    table: &'static [u32],
    count: u32,
}

fn case_of(name: &'static str, source: Source, table: &'static [u32], count: u32) -> Case {
    Case {
        name,
        source,
        table,
        count,
    }
}

// The first words of a buffer; none if it has not so many.
fn first(buffer: &[u32], count: u32) -> &[u32] {
    buffer.get(..count as usize).unwrap_or(&[])
}

// Whether a walk names what is expected, and tells the tests of its path.
fn walks(tree: &[u32], w: u32, expected: Named) -> bool {
    let seen = paths::tests(tree, w);
    walker::walk(tree, w).is_ok_and(|walk| {
        expected == Named::from(walk.entry)
            && walk.count as usize == seen.count
            && walk.mask == seen.mask
    })
}

// The number of nodes, from a tree's header.
fn nodes(tree: &[u32]) -> u32 {
    tree.first().map_or(0, |header| *header & 0xffff)
}

// What the checker says of a tree.
fn say_check(output: &mut impl Write, table: &[u32], tree: &[u32]) -> io::Result<()> {
    match checker::check(table, tree) {
        Ok(()) => write!(output, " nodes, checked"),
        Err(Refusal::BadTree) => write!(output, " nodes, not checked"),
        Err(refusal) => say_refusal(output, refusal),
    }
}

impl Case {
    // What lookup says, as the other decoders say it; nothing where none of them says so.
    fn looked_up(&self, w: u32) -> Option<Named> {
        match selection::lookup(self.table, w) {
            Ok(found) => Some(Named::from(found)),
            Err(Refusal::Ambiguous(word)) if word == w => Some(Named::Ambiguous),
            Err(_) => None,
        }
    }

    // Whether an entry's values are those that the paper names, and encoding them makes the word again.
    fn goes_back(&self, w: u32, entry: u32, values: &[u32; 8], count: u32) -> bool {
        let own = self.source.own(entry, w);
        self.source
            .has_fields(entry, w, [values[0], values[1], values[2]])
            && operands::encode(self.table, entry, first(values, count)).is_ok_and(|made| made
                == own)
    }

    // Whether decoding a word answers what is expected, and an entry's values go back to the word.
    fn comes_back(&self, w: u32, expected: Named) -> bool {
        let mut values = [0u32; 8];
        match operands::decode(self.table, w, &mut values) {
            Ok(Some(Decoded { entry, count })) => {
                expected == Named::Entry(entry) && self.goes_back(w, entry, &values, count)
            }
            Ok(None) => expected == Named::Nothing,
            Err(Refusal::Ambiguous(_)) => expected == Named::Ambiguous,
            Err(_) => false,
        }
    }

    // Whether all agree on a word. Where a table has no tree, an empty one stands for it.
    fn agree(&self, tree: &[u32], w: u32) -> bool {
        let expected = self.source.select(w);
        self.looked_up(w) == Some(expected)
            && (tree.is_empty() || walks(tree, w, expected))
            && self.comes_back(w, expected)
    }

    // The first word on which they do not agree.
    fn differing(&self, tree: &[u32]) -> Option<u32> {
        (0..self.count)
            .map(|n| self.source.word_at(n))
            .find(|w| !self.agree(tree, *w))
    }

    // How many words name such.
    fn how_many<F: Fn(Named) -> bool>(&self, such: F) -> usize
        requires { F.IsAlwaysCallable such }
    {
        (0..self.count)
            .filter(|n| self
                .looked_up(self.source.word_at(*n))
                .is_some_and(|named| such(named)))
            .count()
    }

    // How many words there are, and how many select an entry, nothing, or are ambiguous.
    fn say_counts(&self, output: &mut impl Write) -> io::Result<()> {
        let nothing = self.how_many(|named| named == Named::Nothing);
        let ambiguous = self.how_many(|named| named == Named::Ambiguous);
        let entries = self.how_many(|named| match named {
            Named::Entry(_) => true,
            _ => false,
        });
        write!(
            output,
            "{} words, {entries} entries, {nothing} nothing, {ambiguous} ambiguous, ",
            self.count
        )
    }

    // Whether all words agree, or the first that does not.
    fn say_agreed(&self, output: &mut impl Write, tree: &[u32]) -> io::Result<()> {
        match self.differing(tree) {
            Some(w) => write!(output, ", differs at {w:08x}"),
            None => write!(output, ", same"),
        }
    }

    // Generates a table's tree, has it checked, and compares every word.
    fn compare(&self, output: &mut impl Write) -> io::Result<()> {
        let mut room = [0u32; TREE_ROOM];
        match maker::generate(self.table, &mut room) {
            Ok(n) => {
                let tree = first(&room, n);
                write!(output, "{}", nodes(tree))?;
                say_check(output, self.table, tree)?;
                self.say_agreed(output, tree)
            }
            Err(Refusal::Ambiguous(w)) => {
                say_refusal(output, Refusal::Ambiguous(w))?;
                self.say_agreed(output, &[])
            }
            Err(refusal) => say_refusal(output, refusal),
        }
    }

    // The line of a table.
    fn report(&self, output: &mut impl Write) -> io::Result<()> {
        write!(output, "{}: ", self.name)?;
        self.say_counts(output)?;
        self.compare(output)?;
        writeln!(output)
    }
}

// The tables, in the order of their papers.
fn cases() -> [Case; 21] {
    [
        case_of("01 printed", Source::Printed, &tables::PRINTED, 4),
        case_of("01 0-- --0", Source::TwoZeros, &tables::TWO_ZEROS, 8),
        case_of("01 0-- --0 0-0", Source::WithThird, &tables::WITH_THIRD, 8),
        case_of("01 0-- -00", Source::MoreBits, &tables::MORE_BITS, 8),
        case_of("000 figure 1", Source::Figure1, &tables::FIGURE_1, 16),
        case_of("000 (1)", Source::Example1, &tables::EXAMPLE_1, 8),
        case_of("000 (4)", Source::Example4, &tables::EXAMPLE_4, 16),
        case_of("000 (5)", Source::Example5, &tables::EXAMPLE_5, 8),
        case_of("000 3.1", Source::Default, &tables::DEFAULT, 4),
        case_of("000 (6)", Source::Example6, &tables::EXAMPLE_6, 16),
        case_of("000 (7)", Source::Example7, &tables::EXAMPLE_7, 16),
        case_of("001 table I", Source::Table1, &tables::TABLE_1, 256),
        case_of("001 table II", Source::Table2, &tables::TABLE_2, 256),
        case_of("001 IV-A", Source::Significant, &tables::SIGNIFICANT, 16),
        case_of("002 figure 3", Source::Bld, &tables::BLD, 65536),
        case_of(
            "002 figure 4 before",
            Source::AddBefore,
            &tables::ADD_BEFORE,
            65536,
        ),
        case_of(
            "002 figure 4 after",
            Source::AddAfter,
            &tables::ADD_AFTER,
            65536,
        ),
        case_of("003 figure 1 (a)", Source::Disjoint, &tables::DISJOINT, 32),
        case_of("003 figure 1 (b)", Source::Overlap, &tables::OVERLAP, 32),
        case_of("004 table 2", Source::Mixed, &tables::MIXED, 196608),
        case_of("004 byte order", Source::Packed, &tables::PACKED, 131072),
    ]
}

fn main(rt: HostRuntime) -> io::Result<()> {
    let output = &mut rt.stdout();
    runs::run_worked(output)?;
    runs::run_fit(output)?;
    runs::run_third(output)?;
    runs::run_many(output)?;
    runs::run_printed(output)?;
    for case in &cases() {
        case.report(output)?;
    }
    images::report_bytes(output)
}
