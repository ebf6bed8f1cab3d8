// The items of an image: the word at an address, what it selects, the item that this makes, and all items in a row.
ghost use Rattle.std.specs.Prelude.{◌≡◌, ◌+◌, ◌*◌, ◌^◌, ◌%◌, ◌≤◌, ◌<◌, true, eqb, length};
ghost use Rattle.words.specs.Words.{word, bits};
ghost use Rattle.words.specs.Kinds.{kind_number};
ghost use Rattle.words.specs.Outcome.{result as answered};
ghost use Rattle.table.specs.Table.{entry_number, table_of};
ghost use Rattle.flat.specs.Walk.{walk_of, mask_or_zero};
ghost use Rattle.checker.specs.Checker.{accepts};
ghost use Rattle.image.specs.Address.{halfword_at, word_at, halfwords as halfwords_of};
ghost use Rattle.image.specs.Items.{picked, last_picked, picked_at, item_of, item_at, items};
ghost use Rattle.image.specs.Listing.{step_from, said_step};

use crate::{ByteOffset, HalfwordAddress, Item, Picked, Stepped};
use halves::Shared;
use table::Table;
use words::{Kind, Refusal};

// What a listing takes: a table for images, a tree that the checker accepts for it, and an image of whole halfwords, and not too many.
#[derive(Clone, Copy)]
pub struct Admitted<'a> {
    pub table: Table<'a>,
    pub tree: &'a [u32],
    pub image: &'a [u8],
    ghost wide: { table.width ≡ 32 },
    ghost right: { accepts (table_of table.entries.words.now).entries 32 tree.now ≡ true },
    ghost even: { length image.now % 2 ≡ 0 },
    ghost short: { length image.now ≤ 2097152 },
}

// The length of the entry at a place.
pub fn size_at(table: &[u32], place: u32) -> u32
    ensures { result ≡ bits 15 8 (word table.now place) }
{
    words::part(words::word_at(table, place as usize), 8, 8)
}

// The word of two halfwords.
fn both_halves(upper: u16, lower: u16) -> u32
    ensures { result ≡ 2 ^ 16 * upper + lower }
{
    // kept: the library joins bytes, not halfwords
    u32::from(lower) | (u32::from(upper) << 16)
}

// An item's word: its kind, an entry and its address.
fn item_word(kind: Kind, entry: u8, a: HalfwordAddress) -> u32
    requires { a.0 < 2 ^ 20 }
    ensures { result ≡ kind_number kind * 2 ^ 28 + entry * 2 ^ 20 + a.0 }
{
    a.0 | (u32::from(entry) << 20) | kind.word()
}

// The item of what an image that ends at end says at an address.
fn item_of(p: Picked, a: HalfwordAddress, end: HalfwordAddress) -> Item
    requires { (a.0 < end.0) × (end.0 ≤ 2 ^ 20) }
    ensures { result ≡ item_of p a end.0 }
{
    // kept: each case makes another item
    match p {
        Picked::Nothing => Item {
            word: item_word(Kind::NothingItem, 0, a),
            next: a.after(1),
        },
        Picked::Short(e) => Item {
            word: item_word(Kind::FoundItem, e, a),
            next: a.after(1),
        },
        Picked::Long(e) => Item {
            word: item_word(Kind::FoundItem, e, a),
            next: a.after(2),
        },
        Picked::Cut => Item {
            word: item_word(Kind::CutItem, 0, a),
            next: end,
        },
    }
}

impl<'a> Admitted<'a> {
    ghost use Rattle.image.specs.Parts.{entries_of, Fills};

    // The address at the image's end.
    fn end(&self) -> HalfwordAddress
        ensures { result ≡ record { 0 = halfwords_of self.now.image.now } }
    {
        HalfwordAddress((self.image.len() / 2) as u32)
    }

    // The halfword at an address before the end.
    fn half(&self, a: HalfwordAddress) -> u16
        requires { a.0 < halfwords_of self.now.image.now }
        ensures { result ≡ halfword_at self.now.image.now a }
    {
        // kept: that an address lies before the end is of two values, the address and the image
        let low = ByteOffset::from(a).0 as usize;
        u16::from_le_bytes([self.image[low], self.image[low + 1]])
    }

    // The full word at an address.
    fn full_word(&self, a: HalfwordAddress) -> u32
        requires { a.0 + 1 < halfwords_of self.now.image.now }
        ensures { result ≡ word_at self.now.image.now a }
    {
        both_halves(self.half(a), self.half(a.after(1)))
    }

    // The word at an address before the end; a missing lower half reads as zero.
    fn word(&self, a: HalfwordAddress) -> u32
        requires { a.0 < halfwords_of self.now.image.now }
        ensures { result ≡ word_at self.now.image.now a }
    {
        // kept: as in `half`
        if a.after(1) < self.end() {
            return self.full_word(a);
        }
        both_halves(self.half(a), 0)
    }

    // Whether an entry has 16 bits.
    fn is_short(&self, e: u8) -> bool
        requires { e < self.now.table.entries.count }
        ensures { result ≡ eqb (entry_number (entries_of self.now) e).size 16 }
    {
        size_at(
            self.table.entries.words,
            self.table.entries.places[e as usize],
        ) == 16
    }

    // What a word selects. An accepted tree refuses no word.
    fn pick(&self, w: u32) -> Picked
        ensures { result ≡ picked (entries_of self.now) w }
    {
        let walk = walker::walk(self.tree, w).unwrap();
        match walk.entry {
            Some(entry) => {
                let e = entry as u8;
                if self.is_short(e) {
                    return Picked::Short(e);
                }
                Picked::Long(e)
            }
            None => Picked::Nothing,
        }
    }

    // What all words with this upper half select.
    fn pick_last(&self, upper: u16) -> Picked
        ensures { result ≡ last_picked (entries_of self.now) upper }
    {
        match halves::in_common(self.tree, upper) {
            Shared::Entry(e) => {
                if self.is_short(e) {
                    return Picked::Short(e);
                }
                Picked::Cut
            }
            Shared::Nothing => Picked::Nothing,
            Shared::Several => Picked::Cut,
        }
    }

    // What the image says at an address before the end.
    fn picked_at(&self, a: HalfwordAddress) -> Picked
        requires { a.0 < halfwords_of self.now.image.now }
        ensures { result ≡ picked_at (entries_of self.now) self.now.image.now a }
    {
        // kept: as in `half`
        if a.after(1) < self.end() {
            return self.pick(self.full_word(a));
        }
        self.pick_last(self.half(a))
    }

    // The item there.
    fn item_at(&self, a: HalfwordAddress) -> Item
        requires { a.0 < halfwords_of self.now.image.now }
        ensures { result ≡ item_at (entries_of self.now) self.now.image.now a }
    {
        // kept: as in `half`
        item_of(self.picked_at(a), a, self.end())
    }

    // The mask of the item at an address: of the walk of the word there.
    fn mask_at(&self, a: HalfwordAddress) -> u32
        requires { a.0 < halfwords_of self.now.image.now }
        ensures { result ≡ mask_or_zero (walk_of self.now.tree.now (word_at self.now.image.now a)) }
    {
        // kept: as in `half`
        walker::mask(self.tree, self.word(a))
    }

    // The step at an address; none at or past the end.
    pub fn step(&self, at: HalfwordAddress) -> Option<Stepped>
        ensures { said_step (Ok result) ≡ step_from (answered (entries_of self.now)) self.now.tree.now self.now.image.now at }
    {
        if self.end() <= at {
            return None;
        }
        let item = self.item_at(at);
        let mask = self.mask_at(at);
        Some(Stepped {
            word: item.word,
            next: item.next,
            mask,
        })
    }

    // Lists the image from its start into the buffer.
    pub fn fill(&self, out: &mut [u32]) -> Result<u32, Refusal>
        ensures { Fills (items (entries_of self.now) self.now.image.now) out.old out.new result }
    {
        let end = self.end();
        let mut at = HalfwordAddress(0);
        for n in 0..out.len() {
            if end <= at {
                return Ok(n as u32);
            }
            let item = self.item_at(at);
            out[n] = item.word;
            at = item.next;
        }
        if at < end {
            return Err(Refusal::Full(at.0));
        }
        Ok(out.len() as u32)
    }
}
