// Reads an upper half and the words of a tree, any words, from standard input, and prints what all
// words with that upper half name in it: `entry` and its number, `nothing` or `several`. It lets a
// test ask of words that no checker accepts, which a listing refuses first. A read or a write that fails
// ends the program with its error.
// kept: room of a fixed size, as the libraries have it: a program that asked for memory could be refused it, for which no paper has a line.
#![tactic(auto)]

use halves::Shared;
use std::io;
use std::io::Write;

// The upper half, and the words of the longest tree.
const MOST_WORDS: usize = 65537;

const MOST_BYTES: usize = 262148;

// Prints what was found.
fn print(output: &mut impl Write, found: Shared) -> io::Result<()> {
    match found {
        Shared::Entry(e) => writeln!(output, "entry {e}"),
        Shared::Nothing => writeln!(output, "nothing"),
        Shared::Several => writeln!(output, "several"),
    }
}

// What is found in the words: the upper half, then the tree. Without an upper half it is several.
fn found_in(ws: &[u32]) -> Shared {
    match ws {
        [upper, tree @ ..] => match u16::try_from(*upper) {
            Ok(upper) => halves::in_common(tree, upper),
            Err(_) => Shared::Several,
        },
        [] => Shared::Several,
    }
}

fn main(rt: HostRuntime) -> io::Result<()> {
    // one byte more, to see that there is more
    let mut bytes = [0u8; MOST_BYTES + 1];
    let got = streams::fill(&mut rt.stdin(), &mut bytes)?;
    if MOST_BYTES < got || got % 4 != 0 {
        return print(&mut rt.stdout(), Shared::Several);
    }
    let mut space = [0u32; MOST_WORDS];
    let n = words::words_of(&bytes[..got], &mut space);
    print(&mut rt.stdout(), found_in(&space[..n]))
}
