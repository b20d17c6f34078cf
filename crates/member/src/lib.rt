// Member: whether a set lists a row. First the question, then its own tests, which are of the row.
#![tactic(auto)]

ghost use Rattle.std.specs.Prelude.{◌≡◌, ◌≤◌, length};
ghost use Rattle.paper.specs.Refusals.{entries_fit};
ghost use Rattle.laws.specs.QuestionCauses.{Sound};
ghost use Rattle.member.specs.Answer.{Answers};
ghost use Rattle.member.specs.Face.{Members};

use crate::pass::lists_row;
use paper::{Head, Place, Record, Refusal};
use places::has_place;
use sound::{clear, weigh};

mod pass;

// Whether the set lists the row. The weights tell nothing here: each number of the work is written
// anew before it is read.
pub fn member(head: Head, table: &[Record], work: &mut [u64], row: &[u16]) -> Result<bool, Refusal>
    ensures { Members head table.now work.old row.now result work.new }
{
    weigh(head, table, work)?;
    let answered = answer(head, table, work, row);
    clear(work, head.used as usize);
    answered
}

// What is answered of a sound set: 13, then 8, as the paper orders them, then what the pass finds.
// Entries are looked at only where there is one for each place.
fn answer(head: Head, table: &[Record], work: &mut [u64], row: &[u16]) -> Result<bool, Refusal>
    requires sound { Sound head table.now }
    requires room { head.used ≤ length work.old }
    ensures { Answers head table.now work.old row.now result work.new }
{
    if row.len() != head.arity as usize {
        return Err(Refusal::RowLength);
    }
    if !entries_fit(head, row) {
        return Err(Refusal::Node);
    }
    Ok(lists_row(head, table, work, row))
}

// Whether each entry fits its place: a node of the tree at an open one, blank at a fixed one.
fn entries_fit(head: Head, row: &[u16]) -> bool
    ensures { result ≡ entries_fit head 0 row.now }
{
    row.iter().enumerate().all(|(index, &entry)| {
        if has_place(head.open_places, index) {
            entry < head.nodes
        } else {
            entry == Place::BLANK
        }
    })
}
