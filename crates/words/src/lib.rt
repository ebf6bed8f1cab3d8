// Leaves on 32-bit words, total, for every other crate.
#![tactic(auto)]

ghost use Rattle.std.specs.Prelude.{◌≡◌, ℕ, ◌+◌, ◌*◌, ◌%◌, ◌^◌, ◌≤◌, min, eqb, ltb, List, length};
ghost use Rattle.words.specs.Words.{word, part as part_of, run as run_of};
ghost use Rattle.words.specs.Bytes.{word_of, words_of, Fills, is_table};
ghost use Rattle.words.specs.Kinds.{kind_number, kind_at};
ghost use Rattle.words.specs.Outcome.{said, refused_as, cause_by, cause_of};

// The word at an index; 0 past the end.
pub fn word_at(ws: &[u32], i: usize) -> u32
    ensures { result ≡ word ws.now i }
{
    // kept: 0 past the end is the definition's `word`, which every law of trees and tables goes by
    match ws.get(i) {
        Some(w) => *w,
        None => 0,
    }
}

// The number that the width bits of a word from bit low on make.
pub fn part(w: u32, low: u32, width: u32) -> u32
    ensures { result ≡ part_of w low width }
{
    if 31 < low {
        return 0;
    }
    if 31 < width {
        return w >> low;
    }
    (w >> low) & ((1 << width) - 1)
}

// The word in which the width bits from bit low on are set; bits above bit 31 are left out.
pub fn run(low: u32, width: u32) -> u32
    ensures { result ≡ run_of low width % 2 ^ 32 }
{
    if 31 < low {
        return 0;
    }
    if 31 < width {
        return 0xffff_ffff << low;
    }
    ((1 << width) - 1) << low
}

// Whether a word has no bit at or above width.
pub fn fits(w: u32, width: u32) -> bool
    ensures { result ≡ ltb w (2 ^ width) }
{
    if 31 < width {
        return true;
    }
    w < (1 << width)
}

// Word i of the bytes, which have it whole.
fn whole_word(bytes: &[u8], i: usize) -> u32
    requires { i * 4 + 4 ≤ length bytes.now }
    ensures { result ≡ word (words_of bytes.now) i }
{
    let k = i * 4;
    u32::from_le_bytes([bytes[k], bytes[k + 1], bytes[k + 2], bytes[k + 3]])
}

// A run of words, such as a tree, in whatever form it was lent.
pub trait Words {
    // The words.
    ghost words: { Self → List ℕ };

    // How many bytes are left over, fewer than a word has.
    ghost rest: { Self → ℕ };

    fn rest(&self) -> usize
        ensures { result ≡ rest self.now };

    // How many words they are.
    fn count(&self) -> usize
        ensures { result ≡ length (words self.now) };

    // The word at an index; 0 past the end.
    fn word(&self, i: usize) -> u32
        ensures { result ≡ word (words self.now) i };
}

// Words as they are.
impl<'a> Words for &'a [u32] {
    ghost words = { λ ws. ws.now };

    ghost rest = { λ ws. 0 };

    fn rest(&self) -> usize {
        0
    }

    fn count(&self) -> usize {
        self.len()
    }

    fn word(&self, i: usize) -> u32 {
        word_at(self, i)
    }
}

// Bytes, each word low byte first; a rest of one to three bytes is no word.
impl<'a> Words for &'a [u8] {
    ghost words = { λ bytes. words_of bytes.now };

    ghost rest = { λ bytes. length bytes.now % 4 };

    fn rest(&self) -> usize {
        self.len() % 4
    }

    fn count(&self) -> usize {
        self.len() / 4
    }

    fn word(&self, i: usize) -> u32 {
        if i < self.len() / 4 {
            whole_word(self, i)
        } else {
            0
        }
    }
}

// Writes the whole words of the bytes to the buffer's first words, as many as it takes, and answers
// how many were written.
pub fn words_of(bytes: &[u8], out: &mut [u32]) -> usize
    ensures { Fills bytes.now out.old out.new result }
{
    let n = (bytes.len() / 4).min(out.len());
    for i in 0..n {
        out[i] = whole_word(bytes, i);
    }
    n
}

// The bytes of the longest table.
const TABLE_BYTES: usize = 65536;

// Whether bytes can be a table: whole words, and no more than the longest has.
pub fn is_table(bytes: &[u8]) -> bool
    ensures { result ≡ is_table bytes.now }
{
    if TABLE_BYTES < bytes.len() {
        return false;
    }
    bytes.len() % 4 == 0
}

// What a head word is, by its bits 31-28: a part of a table, of a tree, or an item of an image.
#[derive(Clone, Copy, PartialEq, Eq)]
pub enum Kind {
    Table = 1,
    Entry = 2,
    Field = 3,
    Condition = 4,
    Unmatching = 5,
    TableWithCycles = 6,
    Tree = 7,
    Test = 8,
    Names = 9,
    Nothing = 10,
    FoundItem = 12,
    NothingItem = 13,
    CutItem = 14,
}

impl Kind {
    // A word's kind, if it is one of these: the decision over all sixteen.
    pub fn of(w: u32) -> Option<Kind>
        ensures { result ≡ kind_at (part_of w 28 4) }
    {
        // kept: the one place of these numbers; document 01 asks for the decision over the sixteen kinds
        let kind = part(w, 28, 4);
        match kind {
            1 => Some(Kind::Table),
            2 => Some(Kind::Entry),
            3 => Some(Kind::Field),
            4 => Some(Kind::Condition),
            5 => Some(Kind::Unmatching),
            6 => Some(Kind::TableWithCycles),
            7 => Some(Kind::Tree),
            8 => Some(Kind::Test),
            9 => Some(Kind::Names),
            10 => Some(Kind::Nothing),
            12 => Some(Kind::FoundItem),
            13 => Some(Kind::NothingItem),
            14 => Some(Kind::CutItem),
            0 => None,
            11 => None,
            15.. => None,
        }
    }

    // Whether a word is of the kind.
    pub fn is_of(self, w: u32) -> bool
        ensures { result ≡ eqb (part_of w 28 4) (kind_number self) }
    {
        // kept: the numbers are compared, as the definition does; of the derived `==` the proof would go over all pairs of kinds
        match Kind::of(w) {
            Some(kind) => kind.number() == self.number(),
            None => false,
        }
    }

    // The kind's number.
    fn number(self) -> u32
        ensures { result ≡ kind_number self }
    {
        self as u32
    }

    // The kind's word without other bits.
    pub fn word(self) -> u32
        ensures { result ≡ kind_number self * 2 ^ 28 }
    {
        self.number() << 28
    }
}

// What is wrong with a table, by document 01's numbers.
#[derive(Clone, Copy, PartialEq, Eq)]
pub enum Fault {
    FirstWord = 1,
    Structure = 2,
    Pattern = 3,
    Field = 4,
}

// What refuses a call, in the order of the papers' numbers: a table's own fault and its place (1 to 4), then 5 to 19. The value beside a
// case is the place or the word that is returned with it.
#[derive(Clone, Copy, PartialEq, Eq)]
pub enum Refusal {
    Faulty(Fault, u32),
    NoFit,
    Ambiguous(u32),
    TooWide,
    BadHeader,
    Damaged(u32),
    ShortBuffer,
    NoEntry,
    Misfit(u32),
    NotSelected(u32),
    BadTree,
    BadTable,
    BadImage,
    Full(u32),
    NoRoom,
    Unreached(u32),
}

// What refuses a call as it is printed: number, place and word. Zeros where there is none.
// kept: the three numbers as they are printed
#[derive(Clone, Copy, PartialEq, Eq)]
pub struct Cause {
    pub number: u32,
    pub place: u32,
    pub word: u32,
}

impl Cause {
    // The cause of these parts; of zeros, none.
    fn by(number: u32, place: u32, word: u32) -> Cause
        ensures { result ≡ cause_by number place word }
    {
        Cause {
            number,
            place,
            word,
        }
    }

    // What an answer says of what refuses.
    pub fn of<T>(answer: &Result<T, Refusal>) -> Cause
        ensures { result ≡ cause_of (said answer.now) }
    {
        match answer {
            Ok(_) => Cause::by(0, 0, 0),
            Err(refusal) => Cause::from(*refusal),
        }
    }
}

impl From<Refusal> for Cause {
    ghost from_gives = { λ refusal cause. cause ≡ cause_of (refused_as {A = ℕ} refusal) };

    fn from(refusal: Refusal) -> Cause {
        // kept: the one place of these numbers
        match refusal {
            Refusal::Faulty(fault, place) => Cause::by(fault as u32, place, 0),
            Refusal::NoFit => Cause::by(5, 0, 0),
            Refusal::Ambiguous(word) => Cause::by(6, 0, word),
            Refusal::TooWide => Cause::by(7, 0, 0),
            Refusal::BadHeader => Cause::by(8, 0, 0),
            Refusal::Damaged(node) => Cause::by(9, node, 0),
            Refusal::ShortBuffer => Cause::by(10, 0, 0),
            Refusal::NoEntry => Cause::by(11, 0, 0),
            Refusal::Misfit(index) => Cause::by(12, index, 0),
            Refusal::NotSelected(word) => Cause::by(13, 0, word),
            Refusal::BadTree => Cause::by(14, 0, 0),
            Refusal::BadTable => Cause::by(15, 0, 0),
            Refusal::BadImage => Cause::by(16, 0, 0),
            Refusal::Full(address) => Cause::by(17, address, 0),
            Refusal::NoRoom => Cause::by(18, 0, 0),
            Refusal::Unreached(entry) => Cause::by(19, entry, 0),
        }
    }
}
