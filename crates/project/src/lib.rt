// Project: a byte 1 for each node that stands at a place in some row of a set, else 0. First the
// question, then its own tests, then the marks.
#![tactic(auto)]

ghost use Rattle.std.specs.Prelude.{◌≡◌, ◌≤◌, length};
ghost use Rattle.laws.specs.QuestionCauses.{Sound};
ghost use Rattle.project.specs.Answer.{Answers};
ghost use Rattle.project.specs.Face.{Projects};
ghost use Rattle.project.specs.Marks.{Kept, marks_in};

use crate::pass::keep_nodes;
use paper::{Head, Record, Refusal};
use places::is_open;
use sound::{clear, weigh};

mod pass;

// The marks of a place's nodes, in the lent output.
pub fn project(
    head: Head,
    table: &[Record],
    work: &mut [u64],
    place: u16,
    out: &mut [u8],
) -> Result<(), Refusal>
    ensures { Projects head table.now work.old place out.old result work.new out.new }
{
    weigh(head, table, work)?;
    let answered = answer(head, table, work, place, out);
    clear(work, head.used as usize);
    answered
}

// What is answered of a sound set: 7, then 10, as the paper orders them, then the marks of the nodes
// that the pass keeps. A refusal leaves the output as it is.
fn answer(
    head: Head,
    table: &[Record],
    work: &mut [u64],
    place: u16,
    out: &mut [u8],
) -> Result<(), Refusal>
    requires sound { Sound head table.now }
    requires room { head.used ≤ length work.old }
    ensures { Answers head table.now work.old place out.old result work.new out.new }
{
    let nodes = head.nodes as usize;
    if !is_open(head, place) {
        return Err(Refusal::Place);
    }
    if out.len() < nodes {
        return Err(Refusal::ShortOutput);
    }
    keep_nodes(head, table, work, place as usize - 1);
    mark(&work[..head.used as usize], &mut out[..nodes]);
    Ok(())
}

// A byte 1 for each node that a cell keeps.
fn mark(cells: &[u64], marks: &mut [u8])
    requires { Kept cells.now (length marks.old) }
    ensures { marks.new ≡ marks_in cells.now (length marks.old) }
{
    // Several cells may keep one node, and none keeps those that stand nowhere: so all bytes are 0
    // before some are 1.
    marks.fill(0);
    for &cell in cells {
        // A node of the tree, as every record of a sound set has it.
        if cell != 0 {
            marks[(cell - 1) as usize] = 1;
        }
    }
}
