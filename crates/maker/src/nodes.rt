// The makers: the tree of a cell, in its written form, into a lent buffer. Making a tree and making a node call each other;
// the number of unfixed bits falls with each tested bit. Words that the buffer does not reach are not kept, so that a tree can be sized.
// An entry that a leaf names is marked.
ghost use Rattle.std.specs.Prelude.{◌≡◌, true, false, ◌≤◌, ◌<◌, set, Some};
ghost use Rattle.words.specs.Words.{bit};
ghost use Rattle.choice.specs.Rule.{names};
ghost use Rattle.cell.specs.Decide.{cell_of};
ghost use Rattle.tree.specs.Tree.{below};
ghost use Rattle.tree.specs.Held.{entries_of};
ghost use Rattle.tree.specs.Written.{leaf_word, test_word};
ghost use Rattle.maker.specs.Parts.{made_leaf, Making, SameRoom, split_of};

use crate::{Made, Writer};
use cell::{Cell, Decision};
use table::Table;
use words::Kind;

#[tactic(auto, unfolding(tree::specs::Written::leaf_word))]
fn names_word(e: u8) -> u32
    ensures { result ≡ leaf_word (names e) }
{
    e as u32 | Kind::Names.word()
}

// kept: two bounds of one number each, no fact of a value that a type would hold
#[tactic(auto, unfolding(tree::specs::Written::test_word))]
fn test_word(b: u32, one: usize) -> u32
    requires { (b < 32) × (one < 65536) }
    ensures { result ≡ test_word b one }
{
    one as u32 | (b << 23) | Kind::Test.word()
}

impl Writer<'_> {
    // Writes a word at an index, if the buffer reaches so far.
    fn put(&mut self, at: usize, word: u32)
        ensures same { SameRoom self.old self.new }
        ensures words { self.new.out.now ≡ set self.old.out.now at word }
        ensures marks { self.new.marks ≡ self.old.marks }
    {
        if at < self.out.len() {
            self.out[at] = word;
        }
    }

    // Marks an entry.
    fn mark(&mut self, e: u8)
        ensures same { SameRoom self.old self.new }
        ensures words { self.new.out.now ≡ self.old.out.now }
        ensures marks { self.new.marks ≡ set self.old.marks e true }
    {
        self.marks[e as usize] = true;
    }

    // Writes a leaf at an index.
    fn make_leaf(&mut self, at: usize, word: u32, first: Option<u32>) -> Option<Made>
        requires { at < 16384 }
        ensures same { SameRoom self.old self.new }
        ensures made { result ≡ Some (made_leaf at first) }
        ensures words { self.new.out.now ≡ set self.old.out.now at word }
        ensures marks { self.new.marks ≡ self.old.marks }
    {
        self.put(at, word);
        Some(Made {
            next: at + 1,
            first,
            tests: 0,
        })
    }

    // Writes the tree of a cell from an index on, and marks the entries that its leaves name; nothing if it does not fit below the limit.
    #[cycle(make_node_make_tree)]
    pub fn make_tree(&mut self, table: &Table, cell: Cell, at: usize) -> Option<Made>
        ensures same { SameRoom self.old self.new }
        ensures made { let t = table.now in Making result self.old self.new (below (entries_of t) t.width (cell_of cell)) (cell_of cell) at }
    {
        if self.limit <= at {
            return None;
        }
        let decision = cell::decide(&table.entries, table.width, cell);
        match decision {
            Decision::Names(e) => {
                self.mark(e);
                self.make_leaf(at, names_word(e), None)
            }
            Decision::Nothing => self.make_leaf(at, Kind::Nothing.word(), None),
            Decision::Conflict => self.make_leaf(at, Kind::Nothing.word(), Some(cell.bits)),
            Decision::Test(b) => self.make_node(table, cell, at, b as u32),
        }
    }

    // Writes the tree of a cell that tests bit b: zero side first, then the node, which has the one side's index, then the one side.
    #[cycle(make_node_make_tree)]
    fn make_node(&mut self, table: &Table, cell: Cell, at: usize, b: u32) -> Option<Made>
        requires { (at < self.old.limit) × (b < table.now.width) × (bit cell.fixed b ≡ false) }
        ensures same { SameRoom self.old self.new }
        ensures made { let t = table.now in Making result self.old self.new (split_of (entries_of t) t.width (cell_of cell) b) (cell_of cell) at }
    {
        let zero = self.make_tree(table, cell.zero_side(b), at + 1)?;
        self.put(at, test_word(b, zero.next));
        let one = self.make_tree(table, cell.one_side(b), zero.next)?;
        Some(Made {
            next: one.next,
            first: zero.first.or(one.first),
            tests: zero.tests.max(one.tests) + 1,
        })
    }
}
