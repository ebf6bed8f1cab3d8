// Operands with a sign or a point: a field's word by itself, and a stored value of it.
#![tactic(auto)]

ghost use Rattle.std.specs.Prelude.{◌≡◌, ◌+◌, ◌-◌, ◌%◌, ◌<◌, ◌≤◌, ◌^◌, suc, nat_abs, ltb, length, take, IfOk};
ghost use Rattle.table.specs.Check.{fine};
ghost use Rattle.text.specs.Buffer.{Puts};
ghost use Rattle.numbers.specs.Word.{word_check};
ghost use Rattle.numbers.specs.Whole.{number_of, size_bits, in_range, value_of, on_side};
ghost use Rattle.numbers.specs.Decimals.{divided, sign_text, fraction_text, number_text};
ghost use Rattle.numbers.specs.Calls.{answer_of, signed_of, stored_of, text_of};
ghost use Rattle.numbers.specs.Answers.{said_signed, said_stored, Writes};

use words::{Fault, Refusal};

// ---- whole numbers

// A whole number of 64 bits by its side of zero: size, or -1 - size where it is below.
#[derive(Clone, Copy)]
pub struct Side {
    // kept: the size means one thing on both sides, with one bound, which an enum would say twice
    pub below: bool,
    pub size: u64,
    pub ghost small: { size < 2 ^ 63 },
}

impl From<i64> for Side {
    ghost from_gives = { λ number side. on_side side.below side.size ≡ number };

    fn from(number: i64) -> Side {
        let below = number < 0;
        if below {
            return Side {
                below,
                size: (-1 - number) as u64,
            };
        }
        Side {
            below,
            size: number as u64,
        }
    }
}

impl From<Side> for i64 {
    ghost from_gives = { λ side number. number ≡ on_side side.below side.size };

    fn from(side: Side) -> i64 {
        let n = side.size as i64;
        if side.below { -1 - n } else { n }
    }
}

impl Side {
    // How far the number is from zero.
    fn distance(self) -> u64
        ensures { result ≡ nat_abs (on_side self.below self.size) }
    {
        if self.below { self.size + 1 } else { self.size }
    }

    // A minus sign at the start of a line, where the number is below zero.
    fn put_sign(self, line: &mut [u8]) -> usize
        ensures { Puts line.old 0 (sign_text (on_side self.below self.size)) line.new result }
    {
        if self.below {
            return text::put_byte(line, 0, b'-');
        }
        0
    }
}

// ---- the word

// The width of the widest field.
// kept: a limit, not a kind
const WIDEST: u32 = 32;

// What a field's word without fault says of its values: whether they have a sign, their fraction bits and their width.
#[derive(Clone, Copy)]
struct Form {
    // kept: a sign, or none, is a fact beside the others, on which none of them depends
    sign: bool,
    fraction: u32,
    width: u32,
    ghost some: { 1 ≤ width },
    ghost most: { width ≤ 32 },
    ghost few: { fraction ≤ 16 },
}

impl Form {
    ghost use Rattle.numbers.specs.Judged.{said_form, said_side, judged_as};

    // Judges a field's word.
    fn judge(field: u32) -> Result<Form, Refusal>
        ensures { said_form result ≡ judged_as (word_check field) field }
    {
        if let Err(fault) = table::field_fault(field) {
            return Err(Refusal::Faulty(fault, 0));
        }
        let width = words::part(field, 0, 8);
        if width < 1 || WIDEST < width {
            return Err(Refusal::Faulty(Fault::Field, 0));
        }
        let sign = words::part(field, 24, 4) != 0;
        let fraction = words::part(field, 16, 8);
        Ok(Form {
            sign,
            fraction,
            width,
        })
    }

    // The bits of a value beside its sign.
    fn size_bits(self) -> u32
        ensures { result ≡ size_bits self.sign self.width }
    {
        self.width - self.sign as u32
    }

    // All ones of the width, less n.
    fn opposite(self, n: u64) -> u64
        requires { n < 2 ^ self.width }
        ensures { result ≡ 2 ^ self.width - suc n }
    {
        (1 << self.width) - 1 - n
    }

    // The side of a stored value.
    fn side_in(self, value: u32) -> Result<Side, Refusal>
        ensures said { said_side result ≡ answer_of fine (ltb value (2 ^ self.width)) (number_of self.sign self.width value) }
        ensures near { IfOk result (λ side. nat_abs (on_side side.below side.size) < 2 ^ 32) }
    {
        if !words::fits(value, self.width) {
            return Err(Refusal::Misfit(0));
        }
        let size = value as u64;
        // most fields have no sign, and need no more: by the bits alone each value would pay for the other side
        if !self.sign {
            return Ok(Side { below: false, size });
        }
        let bits = self.size_bits();
        if words::fits(value, bits) {
            return Ok(Side { below: false, size });
        }
        let size = self.opposite(size);
        Ok(Side { below: true, size })
    }

    // The stored value of a number on a side.
    fn value_on(self, side: Side) -> Result<u32, Refusal>
        ensures { let z = on_side side.below side.size in
            said_stored result ≡ answer_of fine (in_range self.sign self.width z) (value_of self.width z) }
    {
        let bits = self.size_bits();
        if 1 << bits <= side.size {
            return Err(Refusal::Misfit(0));
        }
        if !side.below {
            return Ok(side.size as u32);
        }
        if !self.sign {
            return Err(Refusal::Misfit(0));
        }
        Ok(self.opposite(side.size) as u32)
    }

    // The point and the digits after it of a number of steps, where there are fraction bits.
    // kept: a line and a place in it, and no place for what isn't written, are what `Puts` says of the public calls of `text`
    fn put_fraction(self, line: &mut [u8], at: usize, steps: u32) -> usize
        ensures { Puts line.old at (fraction_text self.fraction (steps % 2 ^ self.fraction)) line.new result }
    {
        if self.fraction == 0 {
            return at;
        }
        let mut digits = [b'.'; 17];
        let end = self.fraction as usize + 1;
        divide(
            words::part(steps, 0, self.fraction),
            1 << self.fraction,
            &mut digits[1..end],
        );
        text::put_bytes(line, at, &digits[..end])
    }

    // Makes the text of a number on a side in a line of its own, and answers its length.
    fn make_line(self, side: Side, line: &mut [u8; LONGEST]) -> usize
        requires { nat_abs (on_side side.below side.size) < 2 ^ 32 }
        ensures text { take result line.new ≡ number_text self.fraction (on_side side.below side.size) }
        ensures short { result ≤ 28 }
    {
        let steps = side.distance() as u32;
        let first = side.put_sign(line);
        let point = text::put_decimal(line, first, steps >> self.fraction);
        self.put_fraction(line, point, steps)
    }
}

// Room for a sign, ten digits, a point and sixteen digits: no text is longer.
const LONGEST: usize = 28;

// The digits after the point of rest / unit, by long division.
fn divide(rest: u32, unit: u32, digits: &mut [u8])
    requires { (rest < unit) × (unit ≤ 2 ^ 16) }
    ensures { digits.new ≡ divided unit (length digits.old) rest }
{
    let mut left = rest;
    for digit in digits {
        *digit = b'0' + (left * 10 / unit) as u8;
        left = left * 10 % unit;
    }
}

// ---- the calls: a value out of range is 12, a buffer that is too short 18, the word's fault 2 or 4, all with place 0

// The signed whole number of a stored value.
pub fn signed(field: u32, value: u32) -> Result<i64, Refusal>
    ensures { said_signed result ≡ signed_of field value }
{
    let form = Form::judge(field)?;
    let side = form.side_in(value)?;
    Ok(i64::from(side))
}

// The stored value of a signed whole number.
pub fn stored(field: u32, number: i64) -> Result<u32, Refusal>
    ensures { said_stored result ≡ stored_of field number }
{
    let form = Form::judge(field)?;
    form.value_on(Side::from(number))
}

// Writes a stored value as exact decimal text to the start of a buffer, and answers the text's length. The text is made apart, so that all
// of it is written or nothing.
pub fn put_text(field: u32, value: u32, out: &mut [u8]) -> Result<u32, Refusal>
    ensures { Writes (text_of field value) out.old out.new result }
{
    let form = Form::judge(field)?;
    let side = form.side_in(value)?;
    // kept: the libraries have no heap
    let mut line = [0u8; LONGEST];
    let end = form.make_line(side, &mut line);
    if out.len() < end {
        return Err(Refusal::NoRoom);
    }
    text::put_bytes(out, 0, &line[..end]);
    Ok(end as u32)
}
