// What refuses a listing and a step alike: the table's faults, then 15, 16 and 14.
ghost use Rattle.std.specs.Prelude.{◌≡◌, ℕ, ◌≤◌, ◌<◌, ◌↔◌, IsTrue, IfOk};
ghost use Rattle.words.specs.Outcome.{said_as};
ghost use Rattle.table.specs.Table.{entry_at, table_of};
ghost use Rattle.table.specs.Check.{read_table};
ghost use Rattle.choice.specs.Judged.{entry_of};
ghost use Rattle.image.specs.Listing.{image_size, image_table, image_good, admitted};
ghost use Rattle.image.specs.Parts.{entries_of, IsOf};

use crate::lister::{Admitted, size_at};
use table::{Entries, Table};
use words::Refusal;

// The bytes of the longest image.
const IMAGE_BYTES: usize = 2097152;

// Whether the entry at a place has a length of a table for images.
fn image_size(table: &[u32], place: u32) -> bool
    ensures { result ≡ image_size (entry_at table.now place) }
{
    let size = size_at(table, place);
    size == 16 || size == 32
}

// Whether all entries have.
fn image_sizes(entries: &Entries) -> bool
    requires { entries.now.count ≤ 256 }
    ensures { IsTrue result ↔ ((k : ℕ) → k < entries.now.count → IsTrue (image_size (entry_of entries.now k))) }
{
    entries.places[..entries.count]
        .iter()
        .all(|place| image_size(entries.words, *place))
}

// Whether a table is one for images: of width 32, each entry of 16 bits or 32.
fn image_table(table: &Table) -> bool
    ensures { result ≡ image_table (table_of table.now.entries.words.now) }
{
    table.width == 32 && image_sizes(&table.entries)
}

// Whether the image has whole halfwords, and not too many.
fn image_good(image: &[u8]) -> bool
    ensures { result ≡ image_good image.now }
{
    image.len() % 2 == 0 && image.len() <= IMAGE_BYTES
}

// Reads the table, and looks for what refuses it, the image and the tree.
pub fn admit<'a>(
    table: &'a [u32],
    tree: &'a [u32],
    image: &'a [u8],
) -> Result<Admitted<'a>, Refusal>
    ensures answer { said_as entries_of result ≡ admitted (read_table table.entry.now) tree.entry.now image.entry.now }
    ensures taken { IfOk result (λ a. IsOf a table.entry.now tree.entry.now image.entry.now) }
{
    // kept: the three slices of the public calls, as C lends them
    let held = table::read(table)?;
    if !image_table(&held) {
        return Err(Refusal::BadTable);
    }
    if !image_good(image) {
        return Err(Refusal::BadImage);
    }
    // Of a table that reads, the checker refuses the tree alone.
    if checker::check(table, tree).is_err() {
        return Err(Refusal::BadTree);
    }
    Ok(Admitted {
        table: held,
        tree,
        image,
    })
}
