// The requests on standard input, as docs/probe.md lays them out.
ghost use Rattle.std.specs.Prelude.{◌+◌, ◌<◌, ◌≤◌, length, OnSome};

use words::Words;

const MOST_PARTS: usize = 8;

// What a request asks for, by its number.
#[derive(Clone, Copy)]
pub enum Asked {
    Read = 1,
    Lookup = 2,
    Generate = 3,
    Simulate = 4,
    Decode = 5,
    Encode = 6,
    Check = 7,
    Step = 8,
    List = 9,
    Walk = 10,
    Mask = 11,
    Measure = 12,
    Cycles = 13,
    Signed = 14,
    Stored = 15,
    Text = 16,
    Changed = 22,
}

// No request has the number.
#[derive(Clone, Copy)]
pub struct Unknown;

impl TryFrom<u32> for Asked {
    type Error = Unknown;

    fn try_from(number: u32) -> Result<Asked, Unknown> {
        // kept: the one place of these numbers
        Ok(match number {
            1 => Asked::Read,
            2 => Asked::Lookup,
            3 => Asked::Generate,
            4 => Asked::Simulate,
            5 => Asked::Decode,
            6 => Asked::Encode,
            7 => Asked::Check,
            8 => Asked::Step,
            9 => Asked::List,
            10 => Asked::Walk,
            11 => Asked::Mask,
            12 => Asked::Measure,
            13 => Asked::Cycles,
            14 => Asked::Signed,
            15 => Asked::Stored,
            16 => Asked::Text,
            22 => Asked::Changed,
            _ => return Err(Unknown),
        })
    }
}

// A piece of the input: its bytes, and the whole words that they make.
#[derive(Clone, Copy)]
pub struct Piece<'a> {
    pub bytes: &'a [u8],
    pub words: &'a [u32],
}

// What is asked for, and the parts; one that a request does not have is empty.
// kept: a request may have fewer parts than its call takes, and then those are empty; so all requests have one shape
#[derive(Clone, Copy)]
pub struct Request<'a> {
    pub asked: Asked,
    pub parts: [Piece<'a>; MOST_PARTS],
}

impl<'a> Piece<'a> {
    // The number that a part is: its first word, or 0.
    pub fn number(&self) -> u32 {
        // kept: an empty part is the number 0, as docs/probe.md says
        self.words.word(0)
    }

    // The whole number that a part is: its first two words, low word first, in two's complement.
    pub fn long(&self) -> i64 {
        let low = u64::from(self.words.word(0));
        let high = u64::from(self.words.word(1));
        (high << 32 | low).cast_signed()
    }

    // Takes off so many words from the front.
    fn skip(&mut self, count: usize) -> Option<()>
        ensures { OnSome result (length self.new.words.now + count ≤ length self.old.words.now) }
    {
        self.words = self.words.get(count..)?;
        self.bytes = self.bytes.get(count * 4..)?;
        Some(())
    }

    // Takes off the first word.
    fn take_word(&mut self) -> Option<u32>
        ensures { OnSome result (length self.new.words.now < length self.old.words.now) }
    {
        let first = *self.words.first()?;
        self.skip(1)?;
        Some(first)
    }

    // Takes off a part, with its padding: how many bytes it has, and these.
    fn take_part(&mut self) -> Option<Piece<'a>>
        ensures { OnSome result (length self.new.words.now < length self.old.words.now) }
    {
        let size = self.take_word()? as usize;
        let part = Piece {
            bytes: self.bytes.get(..size)?,
            words: self.words.get(..size / 4)?,
        };
        self.skip(size.div_ceil(4))?;
        Some(part)
    }

    // Takes off a request, if there is a whole one whose number is known.
    pub fn take_request(&mut self) -> Option<Request<'a>>
        ensures { OnSome result (length self.new.words.now < length self.old.words.now) }
    {
        let asked = Asked::try_from(self.take_word()?).ok()?;
        let count = self.take_word()? as usize;
        let none = Piece {
            bytes: &[],
            words: &[],
        };
        let mut parts = [none; MOST_PARTS];
        if MOST_PARTS < count {
            return None;
        }
        for i in 0..count {
            parts[i] = self.take_part()?;
        }
        Some(Request { asked, parts })
    }
}
