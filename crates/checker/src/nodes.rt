// A lent tree against the entries of a table, node by node, each in its cell.
ghost use Rattle.std.specs.Prelude.{◌≡◌, ◌+◌, ◌≤◌, ◌<◌};
ghost use Rattle.words.specs.Words.{bit};
ghost use Rattle.choice.specs.Rule.{selects};
ghost use Rattle.choice.specs.Judged.{said_verdict};
ghost use Rattle.cell.specs.Decide.{cell_of};
ghost use Rattle.tree.specs.Held.{entries_of};
ghost use Rattle.checker.specs.Checker.{is_step_two, check_below, check_sides, accepts as accepts_of};

use cell::Cell;
use choice::Verdict;
use flat::Node;
use table::Table;
use words::Words;

// Whether a verdict names this entry.
#[tactic(auto, unfolding(choice::specs::Rule::selects))]
fn is_named(v: Verdict, entry: u32) -> bool
    ensures { result ≡ selects (said_verdict v) entry }
{
    v == Verdict::Names(entry as usize)
}

// Whether a verdict is that no entry is live.
#[tactic(auto, unfolding(crate::specs::Checker::is_step_two))]
fn is_nothing(v: Verdict) -> bool
    ensures { result ≡ is_step_two (said_verdict v) }
{
    v == Verdict::Nothing
}

// Whether a bit is fixed.
// kept: a bound of one number, no fact of a value that a type would hold
fn is_fixed(fixed: u32, b: u32) -> bool
    requires { b < 32 }
    ensures { result ≡ bit fixed b }
{
    (fixed >> b) & 1 == 1
}

// A lent tree of so many nodes, beside the table that it is to be right for.
#[derive(Clone, Copy)]
struct Lent<'a> {
    table: &'a Table<'a>,
    tree: &'a [u32],
    nodes: u32,
    ghost few: { nodes < 65536 },
}

impl Lent<'_> {
    // Checks the subtree from an index on, in its cell: the index after it if it is right.
    #[cycle(check_node_check_tree)]
    fn check_tree(&self, cell: Cell, at: u32) -> Option<u32>
        requires { at ≤ self.now.nodes }
        ensures { let t = self.now.table.now in result ≡ check_below (entries_of t) self.now.tree.now t.width self.now.nodes (cell_of cell) at }
    {
        let word = self.tree.word(at as usize);
        let node = flat::node_of(word, at, self.table.width, self.nodes)?;
        match node {
            Node::Names(entry) => {
                let verdict = cell::settle(&self.table.entries, cell);
                is_named(verdict, entry).then_some(at + 1)
            }
            Node::Nothing => {
                let verdict = cell::settle(&self.table.entries, cell);
                is_nothing(verdict).then_some(at + 1)
            }
            Node::Asks { bit, one } => self.check_node(cell, at, bit, one),
        }
    }

    // Checks the subtree of a node that tests bit b and has its one side at an index.
    #[cycle(check_node_check_tree)]
    fn check_node(&self, cell: Cell, at: u32, b: u32, one: u32) -> Option<u32>
        requires { (at + 2 ≤ one) × (one ≤ self.now.nodes) × (b < self.now.table.now.width) }
        ensures { let t = self.now.table.now in result ≡ check_sides (entries_of t) self.now.tree.now t.width self.now.nodes (cell_of cell) at b one }
    {
        if is_fixed(cell.fixed, b) {
            return None;
        }
        let end = self.check_tree(cell.zero_side(b), at + 1)?;
        if end != one {
            return None;
        }
        self.check_tree(cell.one_side(b), one)
    }
}

// Whether the tree is right for the entries of a table without fault.
pub fn accepts(table: &Table, tree: &[u32]) -> bool
    ensures { result ≡ accepts_of (entries_of table.now) table.now.width tree.now }
{
    let Some(header) = flat::header_of(tree.word(0), tree.len()) else {
        return false;
    };
    if header.width != table.width {
        return false;
    }
    let nodes = header.nodes;
    let lent = Lent { table, tree, nodes };
    lent.check_tree(Cell::START, 1) == Some(nodes + 1)
}
