// Building: the slots of each node, by the rules, in the paper's order, and the records that they are
// made of. First the public call, then the loop that hands the records on to the lent table.
//
// The table is a slice of structs, and only these two functions hold it, and do little else, as the paper has it:
// the records are made in a batch of plain numbers (batch.rt), and `table::store` copies them. The other files, in
// the order in which a build comes to them: start.rt, node.rt, rule.rt, roots.rt. What they share: state.rt; frame.rt and
// slot.rt for the lent work; triples.rt and splits.rt for the flags of a split.
#![tactic(auto)]

ghost use Rattle.building.specs.Driving.{Ready, Driven};
ghost use Rattle.building.specs.Face.{Builds};

use crate::batch::{BATCH_NUMBERS, WAITING_RECORDS};
use crate::start::{LOOKUP_NUMBERS, begin};
use crate::state::State;
use paper::{Head, Record, Refusal, StreamRefusal};

mod batch;
mod frame;
mod node;
mod roots;
mod rule;
mod slot;
mod splits;
mod start;
mod state;
mod triples;

// The set of a stream, in the lent table. Nothing is asked of the caller: what is wrong is refused.
pub fn build(input: &[u8], work: &mut [u64], table: &mut [Record]) -> Result<Head, StreamRefusal>
    ensures { Builds input.now work.old table.old result work.new table.new }
{
    // The lists, and behind them the notes. Local, 3,410 bytes, as the batch of `drive`: no memory is asked
    // for, and the caller lends none for them.
    let mut lists: [u16; LOOKUP_NUMBERS] = [0; LOOKUP_NUMBERS];
    // With 1 to 5 the work and the table are as they were.
    let mut state = begin(input, work, &mut lists, table.len())?;
    let made = drive(&mut state, input, &lists, work, table);
    // As far as it was asked for: what is behind that was never touched.
    work[..state.asked].fill(0);
    match made {
        Ok(set) => Ok(state.head(set)),
        Err(why) => {
            // The records that did fit have been stored; refusal 6 leaves none of them.
            table::blank(table);
            Err(why.into())
        }
    }
}

// Node after node its rules, and last the root's set. The rules of a node are taken as long as the batch has
// room for the records of one more; then it goes into the table, and they go on with an empty one. Many nodes
// share a batch: a batch a rule was tried, and a quarter of what it did was to keep the state between two rules
// (docs/DECISIONS.md, 42).
// The inner loop ends since `rule` moves on through the stream, the outer one at the last node.
fn drive(
    state: &mut State,
    input: &[u8],
    lists: &[u16],
    work: &mut [u64],
    table: &mut [Record],
) -> Result<u16, Refusal>
    requires { Ready input.now lists.now table.old state.old work.old }
    ensures { Driven input.now table.old state.old work.old result table.new state.new work.new }
{
    // 3,880 bytes.
    let mut batch: [u16; BATCH_NUMBERS] = [0; BATCH_NUMBERS];
    loop {
        while state.rule < input.len() {
            state.node_rules(input, lists, work, &mut batch)?;
            if WAITING_RECORDS < state.count {
                // They fit: no more are counted than the limit, and that is at most the table's length.
                table::store(table, state.from, &batch, state.count);
                state.empty_batch();
            }
        }
        if state.nodes <= state.node + 1 {
            break;
        }
        state.next_node(input, lists, work);
    }
    let set = state.roots(lists, work, &mut batch)?;
    table::store(table, state.from, &batch, state.count);
    Ok(set)
}
