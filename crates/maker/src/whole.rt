// The whole tree of a table without fault: written into a lent buffer, or only sized; and what is judged of it.
ghost use Rattle.std.specs.Prelude.{◌≡◌, ◌≤◌, ◌<◌, not, length, position};
ghost use Rattle.words.specs.Outcome.{result as answered};
ghost use Rattle.tree.specs.Written.{header_word};
ghost use Rattle.tree.specs.Held.{entries_of};
ghost use Rattle.tree.specs.Generate.{table_with, survey_of};
ghost use Rattle.maker.specs.Answers.{said_measure};
ghost use Rattle.maker.specs.Parts.{WritesTree, lowest_unmarked, judged_by, Judging};

use crate::{LIMIT, Made, Size, Writer};
use cell::Cell;
use table::Table;
use words::{Kind, Refusal};

#[tactic(auto, unfolding(tree::specs::Written::header_word))]
fn header_word(width: u32, nodes: usize) -> u32
    requires { (width < 64) × (nodes < 65536) }
    ensures { result ≡ header_word width nodes }
{
    // kept: masks and shifts, the form that document 01 names
    nodes as u32 | (width << 16) | Kind::Tree.word()
}

// The lowest entry that has no mark.
fn unmarked(marks: &[bool]) -> Option<usize>
    ensures { result ≡ position not marks.now }
{
    marks.iter().position(|marked| !*marked)
}

// Judges a whole tree, from what its maker answers and marks: fit, then ambiguity, then reach, by the lowest entry that no leaf names,
// which no word selects.
fn judge_tree(made: Option<Made>, marks: &[bool]) -> Result<Made, Refusal>
    requires { length marks.now ≤ 256 }
    ensures { result ≡ judged_by made (lowest_unmarked marks.now (length marks.now)) }
{
    let made = made.ok_or(Refusal::NoFit)?;
    if let Some(word) = made.first {
        return Err(Refusal::Ambiguous(word));
    }
    match unmarked(marks) {
        Some(e) => Err(Refusal::Unreached(e as u32)),
        None => Ok(made),
    }
}

// Makes the whole tree of a table without fault, below a limit, and judges it.
fn make_whole(table: &Table, out: &mut [u32], limit: usize) -> Result<Made, Refusal>
    requires { limit ≤ 16384 }
    ensures { Judging result out.old out.new (entries_of table.now) table.now.width limit }
{
    // kept: no heap, so a mark for each of the most entries
    let marks = [false; 256];
    let mut writer = Writer { out, marks, limit };
    let made = writer.make_tree(table, Cell::START, 1);
    judge_tree(made, &writer.marks[..table.entries.count])
}

// Writes the tree of a table without fault; a refusal leaves the buffer all zero.
pub fn write_tree(table: &Table, out: &mut [u32]) -> Result<u32, Refusal>
    ensures { WritesTree (entries_of table.now) table.now.width out.old out.new result }
{
    let limit = out.len().min(LIMIT);
    match make_whole(table, out, limit) {
        Ok(made) => {
            out[0] = header_word(table.width, made.next - 1);
            let words = made.next as u32;
            Ok(words)
        }
        Err(refusal) => {
            out.fill(0);
            Err(refusal)
        }
    }
}

// The size of the tree of a table without fault, within a room of so many words.
pub fn survey(table: &Table, room: usize) -> Result<Size, Refusal>
    ensures { said_measure result ≡ survey_of (answered (table_with (entries_of table.now) table.now.width)) room }
{
    // no word is kept
    let made = make_whole(table, &mut [], room.min(LIMIT))?;
    let nodes = (made.next - 1) as u32;
    Ok(Size {
        nodes,
        tests: made.tests,
    })
}
