// Walking a tree in its written form, given as words or as bytes. Nothing copies the tree: the cost is that of the path.
#![tactic(auto)]

ghost use Rattle.std.specs.Prelude.{◌≡◌, ◌≤◌, ◌<◌};
ghost use Rattle.flat.specs.Nodes.{node_of};
ghost use Rattle.flat.specs.Walk.{path as path_of, ended, walk_of, mask_or_zero};
ghost use Rattle.walker.specs.Walked.{said, Small, walk_in, walk_bytes, entered_in, EnteredBounds, went_of, WentBounds};

use flat::{Header, Node};
use words::{Refusal, Words};

// What a walk finds: an entry, or nothing, with the number of tests on the path and the mask of the bits tested.
#[derive(Clone, Copy, PartialEq, Eq)]
pub struct Walked {
    pub entry: Option<u32>,
    pub count: u32,
    pub mask: u32,
}

// What a walk finds before its path: the tree's header. It may be bad, as bytes are that leave a rest; then the word may be too wide.
fn enter<W: Words + Copy>(tree: W, word: u32) -> Result<Header, Refusal>
    ensures value { result ≡ entered_in (W.rest tree) (W.words tree) word }
    ensures bounds { EnteredBounds result }
{
    if tree.rest() != 0 {
        return Err(Refusal::BadHeader);
    }
    let header = flat::header_of(tree.word(0), tree.count()).ok_or(Refusal::BadHeader)?;
    if !words::fits(word, header.width) {
        return Err(Refusal::TooWide);
    }
    Ok(header)
}

// Where a path goes from a node: on to an index, by a bit that it tests; or it ends, at an entry or nothing.
// kept: neither way is a failure, and both have a value
enum Went {
    On { next: u32, bit: u32 },
    Ends(Option<u32>),
}

// One node of a word's path: the tree's word x at index at.
fn pass(x: u32, at: u32, header: Header, word: u32) -> Result<Went, Refusal>
    ensures value { result ≡ went_of (node_of header.width header.nodes at x) word at }
    ensures bounds { WentBounds result header.nodes at }
{
    let node = flat::node_of(x, at, header.width, header.nodes).ok_or(Refusal::Damaged(at))?;
    match node {
        Node::Asks { bit, one } => {
            if (word >> bit) & 1 == 1 {
                return Ok(Went::On { next: one, bit });
            }
            Ok(Went::On { next: at + 1, bit })
        }
        Node::Names(entry) => Ok(Went::Ends(Some(entry))),
        Node::Nothing => Ok(Went::Ends(None)),
    }
}

// The path of a word from index 1.
fn path<W: Words + Copy>(tree: W, header: Header, word: u32) -> Result<Walked, Refusal>
    requires { (1 ≤ header.nodes) × (header.nodes < 65536) }
    ensures result_value { said result ≡ ended (path_of header.nodes (W.words tree) header.width header.nodes word 1) }
    ensures small { Small (said result) }
{
    // kept: the index jumps along a path, which no range does
    let mut at: u32 = 1;
    let mut tests: u32 = 0;
    let mut mask: u32 = 0;
    loop {
        let went = pass(tree.word(at as usize), at, header, word)?;
        match went {
            Went::On { next, bit } => {
                at = next;
                tests += 1;
                mask |= 1 << bit;
            }
            Went::Ends(entry) => {
                return Ok(Walked {
                    entry,
                    count: tests,
                    mask,
                });
            }
        }
    }
}

// Walks a tree by a word, in either form; of bytes, each word is low byte first.
pub fn walk_in<W: Words + Copy>(tree: W, word: u32) -> Result<Walked, Refusal>
    ensures result_value { said result ≡ walk_in (W.rest tree) (W.words tree) word }
    ensures small { Small (said result) }
{
    let header = enter(tree, word)?;
    path(tree, header, word)
}

// Walks a tree by a word.
pub fn walk(tree: &[u32], word: u32) -> Result<Walked, Refusal>
    ensures result_value { said result ≡ walk_of tree.now word }
    ensures small { Small (said result) }
{
    walk_in::<&[u32]>(tree, word)
}

// The same of a tree that is given as bytes, each word low byte first.
#[tactic(auto, unfolding(crate::specs::Walked::walk_bytes))]
pub fn walk_bytes(tree: &[u8], word: u32) -> Result<Walked, Refusal>
    ensures result_value { said result ≡ walk_bytes tree.now word }
    ensures small { Small (said result) }
{
    walk_in::<&[u8]>(tree, word)
}

// The mask of the bits tested alone, 0 when refused. It doesn't call `walk_in`, so that the library for C calls `walk_in` on bytes once, and
// compiles it there without the mask.
pub fn mask<W: Words + Copy>(tree: W, word: u32) -> u32
    ensures { result ≡ mask_or_zero (walk_in (W.rest tree) (W.words tree) word) }
{
    // kept: 0 for a refused walk is what document 02 says of this call
    let Ok(header) = enter(tree, word) else {
        return 0;
    };
    match path(tree, header, word) {
        Ok(walked) => walked.mask,
        Err(_) => 0,
    }
}

// The same of a tree that is given as bytes.
#[tactic(auto, unfolding(crate::specs::Walked::walk_bytes))]
pub fn mask_bytes(tree: &[u8], word: u32) -> u32
    ensures { result ≡ mask_or_zero (walk_bytes tree.now word) }
{
    mask::<&[u8]>(tree, word)
}
