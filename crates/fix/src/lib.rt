// Fixing a place at a node: a new set in a second table. Two passes over the records of the first one:
// what each becomes, and then the new records (passes.rt). Both go upwards: operands have lower numbers,
// and the new records keep the old order.
#![tactic(auto)]

ghost use Rattle.std.specs.Prelude.{◌≡◌, ◌≤◌, length};
ghost use Rattle.paper.specs.Answers.{no_of, says};
ghost use Rattle.paper.specs.Refusals.{unless};
ghost use Rattle.laws.specs.QuestionCauses.{Sound};
ghost use Rattle.sound.specs.Questions.{tests_of};
ghost use Rattle.fix.specs.Answer.{Answers, ImageOf, head_tests, set_after};
ghost use Rattle.fix.specs.Face.{Fixes};

use crate::image::{Fixing, image_in};
use crate::passes::{images, records};
use paper::{Head, Record, Refusal, Set};
use places::{is_open, without_place};
use sound::{clear, weigh};

mod image;
mod passes;

// The set with the place fixed at the node, in the target. A refusal changes nothing there, so the
// first pass finds refusal 12 before the second writes anything.
pub fn fix(
    head: Head,
    source: &[Record],
    work: &mut [u64],
    place: u16,
    node: u16,
    target: &mut [Record],
) -> Result<Head, Refusal>
    ensures { Fixes head source.now work.old place node target.old result work.new target.new }
{
    weigh(head, source, work)?;
    let fixed = answer(head, source, work, place, node, target);
    clear(work, head.used as usize);
    fixed
}

// The same of a set that is sound; the weights or images are left in the work.
fn answer(
    head: Head,
    source: &[Record],
    work: &mut [u64],
    place: u16,
    node: u16,
    target: &mut [Record],
) -> Result<Head, Refusal>
    requires sound { Sound head source.now }
    requires room { head.used ≤ length work.old }
    ensures { Answers head source.now work.old place node target.old result work.new target.new }
{
    test(head, place, node, target.len())?;
    let fixing = Fixing {
        index: (place - 1) as usize,
        node,
    };
    let used = &source[..head.used as usize];
    images(used, fixing, work)?;
    let made = records(used, fixing, work, target);
    Ok(Head {
        open_places: without_place(head.open_places, fixing.index),
        used: made,
        set: new_set(head.set, work),
        ..head
    })
}

// The tests 7, 8 and 6, as the paper orders them.
fn test(head: Head, place: u16, node: u16, entries: usize) -> Result<(), Refusal>
    ensures { says no_of result ≡ unless (tests_of (head_tests head place node entries)) tt }
{
    if !is_open(head, place) {
        return Err(Refusal::Place);
    }
    if head.nodes <= node {
        return Err(Refusal::Node);
    }
    // The paper wants an entry for each record of the source, however few will be made.
    if entries < head.used as usize {
        return Err(Refusal::ShortTable);
    }
    Ok(())
}

// What the set of the head becomes: the image of its root. Empty stays what it is, and so would unit,
// which has no open place and has been refused 7.
fn new_set(set: Set, work: &[u64]) -> Set
    requires { ImageOf set work.now }
    ensures { result ≡ set_after work.now set }
{
    match set {
        Set::Record(i) => image_in(work, i),
        Set::Empty | Set::Unit => set,
    }
}
