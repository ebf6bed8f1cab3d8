// The lister: an image of halfwords, item by item, by a table and a tree that the checker accepts for it.
#![tactic(auto)]

ghost use Rattle.std.specs.Prelude.{◌≡◌, ◌+◌, ◌^◌, ◌<◌};
ghost use Rattle.table.specs.Check.{read_table};
ghost use Rattle.image.specs.Address.{offset_of, after};
ghost use Rattle.image.specs.Listing.{step_of, said_step, Lists};

use words::Refusal;

mod lister;
mod refusals;

// Counts 16-bit words of the image.
#[derive(Clone, Copy, PartialEq, Eq, PartialOrd, Ord)]
pub struct HalfwordAddress(pub u32);

// Counts bytes of the image.
#[derive(Clone, Copy, PartialEq, Eq, PartialOrd, Ord)]
pub struct ByteOffset(pub u64);

// The one conversion.
impl From<HalfwordAddress> for ByteOffset {
    ghost from_gives = { λ a o. o ≡ offset_of a };

    fn from(a: HalfwordAddress) -> ByteOffset {
        ByteOffset(2 * (a.0 as u64))
    }
}

impl HalfwordAddress {
    // So many halfwords on.
    fn after(self, n: u32) -> HalfwordAddress
        requires { self.0 + n < 2 ^ 32 }
        ensures { result ≡ after self n }
    {
        HalfwordAddress(self.0 + n)
    }
}

// What the image says at an address: an entry, by its length of 16 bits or 32; nothing; or, at the last halfword, that it is cut.
// kept: the definition's own cases, none of them a failure
#[derive(Clone, Copy)]
enum Picked {
    Short(u8),
    Long(u8),
    Nothing,
    Cut,
}

// An item's word, and the address after it.
#[derive(Clone, Copy)]
struct Item {
    pub word: u32,
    pub next: HalfwordAddress,
}

// Lists a whole image into the buffer, and answers the number of items. What refuses it: the table's first fault (1 to 4), the table (15),
// the image (16), the tree (14), or more items than the buffer takes, with the address of the first left out (17).
pub fn list(table: &[u32], tree: &[u32], image: &[u8], out: &mut [u32]) -> Result<u32, Refusal>
    ensures { Lists table.now tree.now image.now out.old out.new result }
{
    // kept: the three slices of the public calls, as C lends them
    let admitted = refusals::admit(table, tree, image)?;
    admitted.fill(out)
}

// What a step gives: the item's word, the address after it and the item's mask.
#[derive(Clone, Copy, PartialEq, Eq)]
pub struct Stepped {
    pub word: u32,
    pub next: HalfwordAddress,
    pub mask: u32,
}

// The step at an address; none at the end. It is refused as a listing is, but for 17.
fn step_at(
    image: &[u8],
    at: HalfwordAddress,
    table: &[u32],
    tree: &[u32],
) -> Result<Option<Stepped>, Refusal>
    ensures { said_step result ≡ step_of (read_table table.now) tree.now image.now at }
{
    // kept: the three slices of the public calls, as C lends them
    let admitted = refusals::admit(table, tree, image)?;
    Ok(admitted.step(at))
}

// A cursor over an image: its slice and an address.
// kept: functions over it and no methods, as document 01 asks
#[derive(Clone, Copy)]
pub struct Cursor<'a> {
    pub image: &'a [u8],
    pub at: HalfwordAddress,
}

// The cursor of an image, at an address.
pub fn cursor_at<'a>(image: &'a [u8], at: HalfwordAddress) -> Cursor<'a>
    ensures { (result.image ≡ image.entry) × (result.at ≡ at) }
{
    Cursor { image, at }
}

// The cursor at another address of the same image.
pub fn moved<'a>(c: Cursor<'a>, at: HalfwordAddress) -> Cursor<'a>
    ensures { (result.image ≡ c.entry.image) × (result.at ≡ at) }
{
    Cursor { image: c.image, at }
}

// The step at the cursor.
pub fn next_item<'a, 'b, 'c>(
    c: Cursor<'a>,
    table: &'b [u32],
    tree: &'c [u32],
) -> Result<Option<Stepped>, Refusal>
    ensures { said_step result ≡ step_of (read_table table.now) tree.now c.entry.image.now c.entry.at }
{
    step_at(c.image, c.at, table, tree)
}

// One step, at an address of an image.
pub fn step(
    table: &[u32],
    tree: &[u32],
    image: &[u8],
    at: HalfwordAddress,
) -> Result<Option<Stepped>, Refusal>
    ensures { said_step result ≡ step_of (read_table table.now) tree.now image.now at }
{
    // kept: the three slices of the public calls, as C lends them
    let start = HalfwordAddress(0);
    next_item(moved(cursor_at(image, start), at), table, tree)
}
