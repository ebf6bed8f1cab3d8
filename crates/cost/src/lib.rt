// What an instruction costs: the cycles of an entry.
#![tactic(auto)]

ghost use Rattle.std.specs.Prelude.{◌≡◌};
ghost use Rattle.words.specs.Outcome.{said};
ghost use Rattle.table.specs.Check.{read_table};
ghost use Rattle.cost.specs.Cost.{cycles_of};

use words::Refusal;

// The cycles of an entry of a table; or why not: no such entry (11), or the table's first fault (1 to 4).
pub fn cycles(ws: &[u32], entry: u32) -> Result<u32, Refusal>
    ensures { said result ≡ cycles_of (read_table ws.now) entry }
{
    let table = table::read(ws)?;
    if table.entries.count <= entry as usize {
        return Err(Refusal::NoEntry);
    }
    let e = entry as usize;
    Ok(table::cycles_at(ws, table.entries.places[e]))
}
