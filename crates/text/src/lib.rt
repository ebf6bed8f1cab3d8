// What the programs print, as bytes in a lent buffer. Every function writes its text at an index
// and answers the index after it; where the text does not fit, it writes nothing and answers the
// index that it was given.
// kept: a buffer and an index in it, and the index given back where nothing fits, are what `Puts` says of each public call; lines are made
// in arrays of a fixed size, since there is no heap; and `Display` has no proved digits.
#![tactic(auto)]

ghost use Rattle.std.specs.Prelude.{◌≡◌, [], ◌∷◌, ◌%◌, ◌≤◌, drop};
ghost use Rattle.text.specs.Digits.{digit_of, decimal_text, hex_text};
ghost use Rattle.text.specs.Lines.{tree_line, refusal_line};
ghost use Rattle.text.specs.Buffer.{Puts};

use words::Cause;

// Any bytes, such as a word of a line.
pub fn put_bytes(out: &mut [u8], at: usize, from: &[u8]) -> usize
    ensures { Puts out.old at from.now out.new result }
{
    if out.len() < at {
        return at;
    }
    if out.len() - at < from.len() {
        return at;
    }
    let end = at + from.len();
    out[at..end].copy_from_slice(from);
    end
}

// One byte.
pub fn put_byte(out: &mut [u8], at: usize, b: u8) -> usize
    ensures { Puts out.old at (b ∷ []) out.new result }
{
    put_bytes(out, at, &[b])
}

// Puts n's decimal digits at the end of ten bytes, and answers the index of the first.
fn spell(n: u32, digits: &mut [u8; 10]) -> usize
    ensures { (result ≤ 10) × (drop result digits.new ≡ decimal_text n) }
{
    let mut rest = n;
    for at in (0..10).rev() {
        digits[at] = b'0' + (rest % 10) as u8;
        rest /= 10;
        if rest == 0 {
            return at;
        }
    }
    unreachable!()
}

// A number in decimal.
pub fn put_decimal(out: &mut [u8], at: usize, n: u32) -> usize
    ensures { Puts out.old at (decimal_text n) out.new result }
{
    let mut digits = [0u8; 10];
    let first = spell(n, &mut digits);
    put_bytes(out, at, &digits[first..])
}

// The last hexadecimal digit of a word.
fn digit(w: u32) -> u8
    ensures { result ≡ digit_of (w % 16) }
{
    let d = (w % 16) as u8;
    if d < 10 { b'0' + d } else { b'a' + (d - 10) }
}

// A word in eight hexadecimal digits.
pub fn put_hex(out: &mut [u8], at: usize, w: u32) -> usize
    ensures { Puts out.old at (hex_text w) out.new result }
{
    let mut digits = [0u8; 8];
    for i in 0..8 {
        digits[i] = digit(w >> (28 - 4 * i));
    }
    put_bytes(out, at, &digits)
}

// The longest line of a tree: ten digits, a space, eight digits and the line's end.
const TREE_LINE: usize = 20;

// A word of a tree: its index, a space, the word, and the line's end. The line is made apart, so
// that all of it is written or nothing.
pub fn put_tree_line(out: &mut [u8], at: usize, index: u32, word: u32) -> usize
    ensures { Puts out.old at (tree_line index word) out.new result }
{
    let mut line = [0u8; TREE_LINE];
    let first = put_decimal(&mut line, 0, index);
    let second = put_byte(&mut line, first, b' ');
    let third = put_hex(&mut line, second, word);
    let end = put_byte(&mut line, third, b'\n');
    put_bytes(out, at, &line[..end])
}

// The longest line of a refusal: eight bytes, two numbers of ten digits with a space after each,
// eight digits and the line's end.
const REFUSAL_LINE: usize = 39;

// A refusal: its number, place and word, and the line's end, made apart as a tree's line is.
pub fn put_refusal(out: &mut [u8], at: usize, cause: Cause) -> usize
    ensures { Puts out.old at (refusal_line cause.number cause.place cause.word) out.new result }
{
    let mut line = [0u8; REFUSAL_LINE];
    let first = put_bytes(&mut line, 0, b"refused ");
    let second = put_decimal(&mut line, first, cause.number);
    let third = put_byte(&mut line, second, b' ');
    let fourth = put_decimal(&mut line, third, cause.place);
    let fifth = put_byte(&mut line, fourth, b' ');
    let sixth = put_hex(&mut line, fifth, cause.word);
    let end = put_byte(&mut line, sixth, b'\n');
    put_bytes(out, at, &line[..end])
}
