// The end of the building: the root's slots of all places, of the accepting states, are united. They are
// in the frame of the present node, which is the root, since no node is left behind it. Last the head of the
// set that they make.
ghost use Rattle.std.specs.Prelude.{◌≡◌, ◌+◌, ◌≤◌, ◌<◌, length};
ghost use Rattle.building.specs.Bounds.{batch_numbers, waiting_records};
ghost use Rattle.building.specs.Roots.{AtEnd, Ends, HeadFits, StandsListed, UnitesNext, UnitesTo, head_of};

use crate::batch::{Made, union};
use crate::slot::SETS;
use crate::state::State;
use paper::{Head, Refusal};
use stream::accepts;
use table::{EMPTY, set_of};

impl State {
    // One more state: if it is accepting, its slot of all places is united on the right of those before. The
    // first is united with empty, which makes no record: so the records are at most one less than the accepting states.
    fn unite_root(
        &self,
        lists: &[u16],
        work: &[u64],
        batch: &mut [u16],
        made: Made,
        state: usize,
    ) -> Made
        requires stands_listed { StandsListed self.now lists.now work.now × (self.now.count ≤ waiting_records) }
        requires state_lt_states { (state < self.now.shape.states) × (batch_numbers ≤ length batch.old) }
        requires count_le_count { (self.now.count ≤ made.count) × (made.count ≤ self.now.count + state) × (made.set ≤ self.now.from + made.count + 1) }
        ensures { UnitesNext self.now lists.now work.now state made batch.old result batch.new }
    {
        if !accepts(lists, state) {
            return made;
        }
        // A row has a node at each place: the flag with all its bits, the last one.
        let places = self.shape.flags() - 1;
        let at = self.shape.shelf_at(self.top, state) + places;
        union(
            batch,
            made.count,
            self.from,
            self.node as u16,
            places,
            made.set,
            work[at] % SETS,
        )
    }

    // All states, ascending. Each makes at most one record, so that there are at most 16: a batch that has
    // room for another rule has room for these.
    fn unite_roots(&self, lists: &[u16], work: &[u64], batch: &mut [u16]) -> Made
        requires stands_listed { StandsListed self.now lists.now work.now }
        requires batch_numbers_in_bounds { (batch_numbers ≤ length batch.old) × (self.now.count ≤ waiting_records) }
        ensures { UnitesTo self.now lists.now work.now self.now.shape.states batch.old result batch.new }
    {
        let mut made = Made {
            count: self.count,
            set: EMPTY,
        };
        for state in 0..self.shape.states {
            made = self.unite_root(lists, work, batch, made, state);
        }
        made
    }

    // The set of the root, with its records in the batch, unless they pass the limit.
    pub(crate) fn roots(
        &mut self,
        lists: &[u16],
        work: &[u64],
        batch: &mut [u16],
    ) -> Result<u16, Refusal>
        requires at_end { AtEnd self.old lists.now work.now batch.old }
        requires batch_numbers_in_bounds { (batch_numbers ≤ length batch.old) × (self.old.count ≤ waiting_records) }
        ensures { Ends self.old lists.now work.now batch.old result self.new batch.new }
    {
        let made = self.unite_roots(lists, work, batch);
        self.count_records(made.count, self.rule)?;
        Ok(made.set as u16)
    }

    // The head of the set that was made.
    pub(crate) fn head(&self, set: u16) -> Head
        requires { HeadFits self.now }
        ensures { result ≡ head_of self.now set }
    {
        // No place is fixed yet: all are open.
        let open_places = self.shape.flags() - 1;
        // At most 60,000 records are used: their number fits 16 bits.
        Head {
            nodes: self.nodes as u16,
            arity: self.shape.arity as u16,
            open_places: open_places as u16,
            used: (self.from + self.count) as u16,
            set: set_of(set),
        }
    }
}
