// The tree of a table, made: generating it in its written form, and sizing it before memory is lent for it.
#![tactic(auto)]

ghost use Rattle.std.specs.Prelude.{◌≡◌, ◌≤◌};
ghost use Rattle.table.specs.Check.{read_table};
ghost use Rattle.tree.specs.Generate.{measure_of};
ghost use Rattle.maker.specs.Answers.{said_measure, Generates};

use words::Refusal;

mod nodes;
mod whole;

// The greatest number of words of a tree.
const LIMIT: usize = 16384;

// Where a tree is written: the buffer, which may be shorter than the tree, a mark for each entry that a leaf names, and the limit of the
// tree's words.
#[derive(Drop)]
struct Writer<'a> {
    out: &'a mut [u32],
    marks: [bool; 256],
    limit: usize,
    ghost within: { limit ≤ 16384 },
}

// What was made of a tree: the index after it, the word of its first conflict, and the greatest number of tests on its paths.
#[derive(Clone, Copy)]
struct Made {
    next: usize,
    first: Option<u32>,
    tests: u32,
}

// Writes the tree of a table at the buffer's start, and answers its number of words; or why not: it does not fit (5), an ambiguous
// word (6), the lowest entry that no word selects (19), or the table's first fault (1 to 4).
pub fn generate(table: &[u32], out: &mut [u32]) -> Result<u32, Refusal>
    ensures { Generates table.now out.old out.new result }
{
    let table = table::read(table)?;
    whole::write_tree(&table, out)
}

// The size of a tree: its number of nodes, and the greatest number of tests on a path.
#[derive(Clone, Copy, PartialEq, Eq)]
pub struct Size {
    pub nodes: u32,
    pub tests: u32,
}

// The size of the tree of a table, without a buffer for it; or why not, as in generating, with the tree limit (5) for a buffer.
pub fn measure(table: &[u32]) -> Result<Size, Refusal>
    ensures { said_measure result ≡ measure_of (read_table table.now) }
{
    let table = table::read(table)?;
    whole::survey(&table, LIMIT)
}
