// What is printed of a refusal, on the output that is lent.
use std::io;
use std::io::Write;
use words::{Cause, Refusal};

// A refusal, as mktree prints it.
pub fn say_refusal(output: &mut impl Write, refusal: Refusal) -> io::Result<()> {
    let Cause {
        number,
        place,
        word,
    } = Cause::from(refusal);
    write!(output, "refused {number} {place} {word:08x}")
}
