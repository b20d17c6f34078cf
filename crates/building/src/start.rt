// The start of a build: the tree and the query are read, the work is measured, and the building stands at
// its first node. The paper's order of the refusals is the order here: 1 and 2, 3 and 4, then 5.
ghost use Rattle.std.specs.Prelude.{◌≤◌, length};
ghost use Rattle.building.specs.Listed.{lookup_numbers};
ghost use Rattle.building.specs.Start.{Begins};

use crate::frame::Shape;
use crate::splits::{NOTE_NUMBERS, note};
use crate::state::State;
use paper::limits::MOST_RECORDS;
use paper::{Refusal, StreamRefusal};
use stream::{LIST_NUMBERS, list_rules, read_query, read_tree};

// How many numbers a build looks up: the lists of its rules, and behind them the notes of its splits.
pub(crate) const LOOKUP_NUMBERS: usize = LIST_NUMBERS + NOTE_NUMBERS;

// The building stands at its first node, or is refused with 1 to 5. `entries` is how many the table has. What
// is kept of the tree and the query is a few numbers, the lists, which tell where the rules stand, and behind
// these the notes of the splits.
pub(crate) fn begin(
    input: &[u8],
    work: &mut [u64],
    lists: &mut [u16],
    entries: usize,
) -> Result<State, StreamRefusal>
    requires { lookup_numbers ≤ length lists.old }
    ensures { Begins input.now work.old entries result work.new lists.new }
{
    // The tree, then the query behind it: the first that is refused ends the build.
    let tree = read_tree(input)?;
    let query = read_query(input, tree.end)?;
    let shape = Shape {
        arity: query.arity,
        states: query.states,
    };
    // A frame for each of the most subtrees ever unjoined, and one for the present node. At most 4,096
    // frames of at most 256 numbers: a usize holds far more.
    let asked = (1 + tree.most) * shape.frame_width();
    // The work is not touched before this is known: refusal 5 leaves it as it was.
    if work.len() < asked {
        return Err(Refusal::ShortWork.into());
    }
    // The first rule of the first node `start_node` looks up.
    let mut state = State {
        asked,
        nodes: tree.nodes,
        rules: query.rules,
        shape,
        limit: entries.min(MOST_RECORDS),
        from: 0,
        count: 0,
        at: 0,
        node: 0,
        top: 0,
        rule: 0,
    };
    list_rules(input, query.rules, lists);
    note(&mut lists[LIST_NUMBERS..], shape.flags());
    state.start_node(input, lists, work);
    Ok(state)
}
