// Headers and nodes of a tree in its written form, in any words.
#![tactic(auto)]

ghost use Rattle.std.specs.Prelude.{◌≡◌, ℕ, ◌<◌};
ghost use Rattle.flat.specs.Nodes.{header_rest, header_of, test_node, names_node, nothing_node, node_of, HeaderBounds, NodeBounds};

use words::Kind;

// A tree's header: its width and its number of nodes.
#[derive(Clone, Copy, PartialEq, Eq)]
pub struct Header {
    pub width: u32,
    pub nodes: u32,
}

// A node of a tree in its written form: a test of a bit, with the one side's index; an entry; nothing.
// kept: the definition's own cases, none of them a failure
#[derive(Clone, Copy, PartialEq, Eq)]
pub enum Node {
    Asks { bit: u32, one: u32 },
    Names(u32),
    Nothing,
}

// A kind 8 node: spare bits, tested bit, one side's index.
fn test_node(word: u32, at: u32, width: u32, nodes: u32) -> Option<Node>
    ensures value { result ≡ test_node width nodes at word }
    ensures bounds { NodeBounds result width nodes at }
{
    // kept: width and nodes are two of a node's four numbers, which `node_of` takes from who has no header
    let spare = (word >> 16) & 127;
    let bit = (word >> 23) & 31;
    let one = word & 65535;
    if spare != 0 {
        return None;
    }
    if width <= bit {
        return None;
    }
    if (one as u64) < at as u64 + 2 {
        return None;
    }
    if nodes < one {
        return None;
    }
    Some(Node::Asks { bit, one })
}

// A kind 9 node: the entry.
fn names_node(word: u32) -> Option<Node>
    ensures value { result ≡ names_node word }
    ensures bounds { (w n i : ℕ) → NodeBounds result w n i }
{
    let spare = (word >> 8) & 0xfffff;
    if spare != 0 {
        return None;
    }
    Some(Node::Names(word & 255))
}

// A kind 10 node.
fn nothing_node(word: u32) -> Option<Node>
    ensures value { result ≡ nothing_node word }
    ensures bounds { (w n i : ℕ) → NodeBounds result w n i }
{
    let spare = word & 0xfff_ffff;
    if spare != 0 {
        return None;
    }
    Some(Node::Nothing)
}

// What a word is as the node at an index of a tree of so many nodes; none where it is damaged.
pub fn node_of(word: u32, at: u32, width: u32, nodes: u32) -> Option<Node>
    ensures value { result ≡ node_of width nodes at word }
    ensures bounds { NodeBounds result width nodes at }
{
    let kind = word >> 28;
    // kept: the paper asks here for a decision over the sixteen kinds with ranges
    match kind {
        8 => test_node(word, at, width, nodes),
        9 => names_node(word),
        10 => nothing_node(word),
        0..=7 | 11.. => None,
    }
}

// Width and number of nodes, from 1 on and within the words.
fn header_rest(width: u32, nodes: u32, words: usize) -> Option<Header>
    requires { nodes < 65536 }
    ensures value { result ≡ header_rest width nodes words }
    ensures bounds { HeaderBounds result words }
{
    // kept: width and nodes before they are a header
    if width < 1 {
        return None;
    }
    if 32 < width {
        return None;
    }
    if nodes < 1 {
        return None;
    }
    if words <= nodes as usize {
        return None;
    }
    Some(Header { width, nodes })
}

// What the first word says of a tree of so many words; none where it is bad.
pub fn header_of(first: u32, words: usize) -> Option<Header>
    ensures value { result ≡ header_of first words }
    ensures bounds { HeaderBounds result words }
{
    if !Kind::Tree.is_of(first) {
        return None;
    }
    let spare = (first >> 22) & 63;
    if spare != 0 {
        return None;
    }
    header_rest((first >> 16) & 63, first & 65535, words)
}
