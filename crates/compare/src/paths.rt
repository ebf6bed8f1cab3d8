// A word's path through a tree, found in another way than the walker's: the nodes are gone through
// in the order that they are written in, and the tests that the path comes to are collected.
// kept: numbers as the papers have them: another reading than the libraries', whose mistakes it must not share.

// How many tests a path comes to, and the mask of their bits.
#[derive(Drop)]
pub struct Seen {
    pub count: usize,
    pub mask: u32,
}

// The bit that a test asks for, as a power of two.
fn asked(node: u32) -> u32 {
    1 << ((node >> 23) % 32)
}

// What the path passes over after a test: nothing if the bit is 0, since the zero side is next;
// else all before the one side.
fn one_side(node: u32, w: u32) -> usize {
    if w & asked(node) == 0 {
        0
    } else {
        (node % 65536) as usize
    }
}

// The tests that a word's path comes to. The first other node ends it.
pub fn tests(tree: &[u32], w: u32) -> Seen {
    let mut from: usize = 0;
    let mut count: usize = 0;
    let mut mask: u32 = 0;
    for index in 1..tree.len() {
        if from <= index {
            let node = tree[index];
            if node >> 28 != 8 {
                break;
            }
            count += 1;
            mask |= asked(node);
            from = one_side(node, w);
        }
    }
    Seen { count, mask }
}
