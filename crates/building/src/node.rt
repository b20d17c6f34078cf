// What is done at one node: the rules of a leaf, those of a branch, and the way to the next node. A rule is
// read where it stands in the stream, a byte each: kind, label, flag and state of a leaf rule, and of a branch
// rule kind, label, flag, left state, right state and state.
ghost use Rattle.std.specs.Prelude.{◌≡◌, ◌+◌, ◌≤◌, ◌<◌, length, get_or};
ghost use Rattle.building.specs.Bounds.{batch_numbers, waiting_records};
ghost use Rattle.building.specs.Branches.{BranchReady, branch_of};
ghost use Rattle.building.specs.Coming.{Comes, GoesOn, HasCome, Joins};
ghost use Rattle.building.specs.Kinds.{leaf_kind};
ghost use Rattle.building.specs.Listed.{Listed};
ghost use Rattle.building.specs.Standing.{IsStanding, IsFilling, Turned};

use crate::batch::WAITING_RECORDS;
use crate::rule::{Branch, branch_rule, can_stand, leaf_rule};
use crate::state::State;
use paper::Refusal;
use paper::kinds::{LEAF, RULE_ABOVE};
use stream::{LIST_NUMBERS, body_length, first_rule, rule_after};

impl State {
    // The rules of a leaf from the next one on, as long as there is room in the batch for the records of one
    // more. No range is gone over: the lists say where the next rule stands. The loop ends since `rule` moves on through the stream, to its end where no rule is left; where
    // the batch ends it, the next call goes on at `rule`. A leaf rule makes one record at most, and yet the
    // loop stops where a branch's does: so one law (proofs/RuleLoop.antt) serves both.
    fn leaf_rules(
        &mut self,
        input: &[u8],
        lists: &[u16],
        work: &mut [u64],
        batch: &mut [u16],
    ) -> Result<(), Refusal>
        requires filling { IsFilling input.now self.old work.old batch.old × Listed input.now lists.now }
        requires rule_in_bounds { (self.old.rule < length input.now) × (get_or input.now self.old.at 0 ≡ leaf_kind) }
        requires batch_numbers_in_bounds { (batch_numbers ≤ length batch.old) × (self.old.count ≤ waiting_records) }
        ensures { Turned input.now self.old work.old batch.old result self.new work.new batch.new }
    {
        let label = input[self.at + 1];
        let mut count = self.count;
        let mut rule = self.rule;
        while rule < input.len() && count <= WAITING_RECORDS {
            let flag = input[rule + 2] as usize;
            // A rule that would mark a pad is passed over: no row names one.
            if can_stand(label, flag) {
                // The slot of this rule is in the node's own frame, the one on top.
                let to = self.shape.shelf_at(self.top, input[rule + 3] as usize);
                count = leaf_rule(batch, work, count, self.from, self.node as u16, flag, to);
            }
            rule = rule_after(lists, rule - self.rules);
        }
        // Once for all of them, and not once a rule: until it is stored the batch may go past the limit.
        self.count_records(count, rule)
    }

    // A rule of a branch, and its shelves: of the left state in the older child's frame, the second below the
    // node's, of the right one in the last child's, the first below, and of its own in the node's frame.
    fn branch_at(&self, input: &[u8], rule: usize) -> Branch
        requires { BranchReady input.now self.now rule }
        ensures { result ≡ branch_of input.now self.now rule }
    {
        let left = self.shape.shelf_at(self.top - 2, input[rule + 3] as usize);
        let right = self.shape.shelf_at(self.top - 1, input[rule + 4] as usize);
        let to = self.shape.shelf_at(self.top, input[rule + 5] as usize);
        Branch {
            used: self.from,
            node: self.node,
            size: self.shape.flags(),
            own: input[rule + 2] as usize,
            left,
            right,
            to,
        }
    }

    // The rules of a branch, likewise: the loop ends by the stream or by the batch, as that of a leaf.
    fn branch_rules(
        &mut self,
        input: &[u8],
        lists: &[u16],
        work: &mut [u64],
        batch: &mut [u16],
    ) -> Result<(), Refusal>
        requires filling { IsFilling input.now self.old work.old batch.old × Listed input.now lists.now }
        requires rule_in_bounds { (self.old.rule < length input.now) × (get_or input.now self.old.at 0 ≡ leaf_kind → ⊥) }
        requires batch_numbers_in_bounds { (batch_numbers ≤ length batch.old) × (self.old.count ≤ waiting_records) }
        ensures { Turned input.now self.old work.old batch.old result self.new work.new batch.new }
    {
        let notes = &lists[LIST_NUMBERS..];
        let mut count = self.count;
        let mut rule = self.rule;
        while rule < input.len() && count <= WAITING_RECORDS {
            let here = self.branch_at(input, rule);
            count = branch_rule(batch, work, notes, count, here);
            rule = rule_after(lists, rule - self.rules);
        }
        self.count_records(count, rule)
    }

    // Rules of the present node, from the next one on.
    pub(crate) fn node_rules(
        &mut self,
        input: &[u8],
        lists: &[u16],
        work: &mut [u64],
        batch: &mut [u16],
    ) -> Result<(), Refusal>
        requires filling { IsFilling input.now self.old work.old batch.old × Listed input.now lists.now }
        requires rule_in_bounds { self.old.rule < length input.now }
        requires batch_numbers_in_bounds { (batch_numbers ≤ length batch.old) × (self.old.count ≤ waiting_records) }
        ensures { Turned input.now self.old work.old batch.old result self.new work.new batch.new }
    {
        if input[self.at] == LEAF {
            self.leaf_rules(input, lists, work, batch)
        } else {
            self.branch_rules(input, lists, work, batch)
        }
    }

    // The frame of the present node becomes that of a subtree. A leaf's stays where it is. A branch's is
    // copied down over the older child's; the place of the last child's is then free, and is where the next
    // node's frame will be. So the frames are always those of the unjoined subtrees. How many there are then.
    fn join_frames(&self, input: &[u8], work: &mut [u64]) -> usize
        requires { IsStanding input.now self.now work.old }
        ensures { Joins input.now self.now work.old result work.new }
    {
        if input[self.at] == LEAF {
            return self.top + 1;
        }
        // There are two below: the tree was read, and a branch with fewer than two unjoined is refused with 1.
        let from = self.shape.frame_at(self.top);
        let to = self.shape.frame_at(self.top - 2);
        work.copy_within(from..from + self.shape.frame_width(), to);
        self.top - 1
    }

    // The start of a node: its frame is cleared, and its first rule looked for, whose kind is 16 more than
    // the node's. What stands in the frame before is what another subtree or the lender has left there.
    pub(crate) fn start_node(&mut self, input: &[u8], lists: &[u16], work: &mut [u64])
        requires { Comes input.now self.old work.old × Listed input.now lists.now }
        ensures { HasCome input.now self.old work.old self.new work.new }
    {
        let from = self.shape.frame_at(self.top);
        work[from..from + self.shape.frame_width()].fill(0);
        self.rule = first_rule(lists, input[self.at] + RULE_ABOVE, input[self.at + 1]);
    }

    // The end of the present node and the start of the next. No record is made, so the batch is not needed.
    pub(crate) fn next_node(&mut self, input: &[u8], lists: &[u16], work: &mut [u64])
        requires standing { IsStanding input.now self.old work.old × Listed input.now lists.now }
        requires input_len_bound { (length input.now ≤ self.old.rule) × (self.old.node + 1 < self.old.nodes) }
        ensures { GoesOn input.now self.old work.old self.new work.new }
    {
        self.top = self.join_frames(input, work);
        self.at = self.at + 1 + body_length(input[self.at]);
        self.node += 1;
        self.start_node(input, lists, work);
    }
}
