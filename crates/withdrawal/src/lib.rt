// How far a withdrawn entry reaches: how many words of a list change their answer.
#![tactic(auto)]

ghost use Rattle.std.specs.Prelude.{◌≡◌, ◌<◌};
ghost use Rattle.words.specs.Outcome.{said};
ghost use Rattle.table.specs.Check.{read_table};
ghost use Rattle.withdrawal.specs.Counted.{changed_of};

use table::Table;
use words::Refusal;

// Counts the words of the list that select the entry, up to an unfit one. These change their answer, and no other does, so that nothing
// is looked up in the table without the entry.
fn count_selecting(table: &Table, entry: u32, list: &[u32]) -> Result<usize, Refusal>
    requires { entry < table.now.entries.count }
    ensures { said result ≡ changed_of (read_table table.now.entries.words.now) entry list.now }
{
    let mut selecting: usize = 0;
    for word in list {
        if let Some(found) = selection::find_among(&table.entries, table.width, *word)? {
            if found.entry == entry {
                selecting += 1;
            }
        }
    }
    Ok(selecting)
}

// How many words of the list change their answer when the entry is withdrawn; or why not: no such entry (11), a word that has a bit at or
// above the width (7) or is ambiguous as the table stands, with the word (6), or the table's first fault (1 to 4).
pub fn count_changed(ws: &[u32], entry: u32, list: &[u32]) -> Result<usize, Refusal>
    ensures { said result ≡ changed_of (read_table ws.now) entry list.now }
{
    let table = table::read(ws)?;
    if table.entries.count <= entry as usize {
        return Err(Refusal::NoEntry);
    }
    count_selecting(&table, entry, list)
}
