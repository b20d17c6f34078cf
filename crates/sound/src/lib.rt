// The test that a set is sound, and how many rows each of its records lists: one pass over the used
// records, with which every question begins. Then the first question, how many rows there are, and
// what the questions need besides: the rows of a set, and the cleared work.
#![tactic(auto)]

ghost use Rattle.std.specs.Prelude.{◌≡◌, min, length, replicate};
ghost use Rattle.paper.specs.Refusals.{over};
ghost use Rattle.sound.specs.Counting.{rows_in_set};
ghost use Rattle.sound.specs.Face.{Weighs, Counts};

use crate::pass::passes;
use paper::{Head, Record, Refusal, Set};

mod head;
mod pass;
mod record;
mod weight;

// How a weight is read is for the questions too.
pub use weight::{flag_in, rows_in};

// A head and its table go apart from each other through all questions, as C lends them: a struct of both
// would be made at each call and taken apart in it (docs/DECISIONS.md, 129).

// Refusals 5 and 11, as the paper orders them, or the weights of the used records in the work. A caller
// that is told `Ok` has to clear the work; after a refusal it is as the paper wants it.
pub fn weigh(head: Head, table: &[Record], work: &mut [u64]) -> Result<(), Refusal>
    ensures { Weighs head table.now work.old result work.new }
{
    let used = head.used as usize;
    // 5 leaves the work as it is.
    if work.len() < used {
        return Err(Refusal::ShortWork);
    }
    if !passes(head, table, work) {
        // 11 leaves the stated part zero, whatever stands there: weights, or what the caller lent.
        clear(work, used);
        return Err(Refusal::NotSound);
    }
    Ok(())
}

// How many rows are listed.
pub fn count(head: Head, table: &[Record], work: &mut [u64]) -> Result<u64, Refusal>
    ensures { Counts head table.now work.old result work.new }
{
    weigh(head, table, work)?;
    let rows = set_rows(head.set, work);
    clear(work, head.used as usize);
    Ok(rows)
}

// How many rows a set lists, by the weights in the work. Of a record that the work does not reach it
// tells 0: that is no root of a sound set, but a public function answers for any.
pub fn set_rows(set: Set, work: &[u64]) -> u64
    ensures { result ≡ rows_in_set work.now set }
{
    match set {
        Set::Empty => 0,
        Set::Unit => 1,
        Set::Record(root) => work.get(root as usize).map_or(0, |&weight| rows_in(weight)),
    }
}

// The first numbers of the work, as far as it goes, set to 0: what each question leaves of its work.
pub fn clear(work: &mut [u64], used: usize)
    ensures { work.new ≡ over (replicate (min used (length work.old)) 0) work.old }
{
    let reached = used.min(work.len());
    work[..reached].fill(0);
}
