// Where a build stands, from its first node to its last record.
ghost use Rattle.std.specs.Prelude.{◌≡◌, ◌+◌, ◌≤◌};

use crate::frame::Shape;
use paper::Refusal;

// The first five stay: the work asked for, the nodes, where the rules begin, the query's arity and states, the
// records that fit. `from` is where the batch goes in the table, `count` how many records it has. `node` is the
// number of the present node, `at` where its record stands, `top` how many frames are below its own, `rule` where
// its next matching rule stands: the end of the input where none is left.
// What is asked for rarely stands first: `begin` answers a Result, and the compiler keeps what lies where its
// refusal would be in pieces, which are put together at each use.
#[derive(Clone, Copy, Debug, PartialEq, Eq)]
pub(crate) struct State {
    pub(crate) asked: usize,
    pub(crate) nodes: usize,
    pub(crate) rules: usize,
    pub(crate) shape: Shape,
    pub(crate) limit: usize,
    pub(crate) from: usize,
    pub(crate) count: usize,
    pub(crate) at: usize,
    pub(crate) node: usize,
    pub(crate) top: usize,
    pub(crate) rule: usize,
}

impl State {
    ghost use Rattle.building.specs.States.{Counts, emptied};

    // With an empty batch: the records of the one before are in the table.
    pub(crate) fn empty_batch(&mut self)
        requires { self.old.from + self.old.count ≤ self.old.limit }
        ensures { self.new ≡ emptied self.old }
    {
        self.from += self.count;
        self.count = 0;
    }

    // With so many records in the batch, and on to the next rule, unless the records pass the limit. What is
    // left of the build could only make more of them then, so that it ends here, with refusal 6.
    pub(crate) fn count_records(&mut self, count: usize, rule: usize) -> Result<(), Refusal>
        requires { self.old.from ≤ self.old.limit }
        ensures { Counts self.old count rule result self.new }
    {
        // `from` is never past the limit, since this was asked of every batch before.
        if self.limit - self.from < count {
            return Err(Refusal::ShortTable);
        }
        self.count = count;
        self.rule = rule;
        Ok(())
    }
}
