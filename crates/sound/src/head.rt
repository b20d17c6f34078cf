// What the head asks for: its numbers before the pass over the records, and its set after it.
ghost use Rattle.std.specs.Prelude.{◌≡◌, ◌≤◌, length};
ghost use Rattle.sound.specs.Head.{head_fits, set_fits};

use crate::weight::flag_in;
use paper::limits::{MOST_NODES, MOST_PLACES, MOST_RECORDS};
use paper::{Flag, Head, Set};

// Whether the head's numbers are those of a sound set, over a table of so many entries.
#[tactic(auto, unfolding(crate::specs::Head::head_fits))]
pub(crate) fn head_fits(head: Head, entries: usize) -> bool
    ensures { result ≡ head_fits head entries }
{
    (1..=MOST_NODES).contains(&(head.nodes as usize))
        && (1..=MOST_PLACES).contains(&(head.arity as usize))
        // Only now is the arity small enough to shift by.
        && head.open_places < 1u16 << head.arity
        && head.used as usize <= MOST_RECORDS
        && head.used as usize <= entries
}

// Whether the set fits its records, of which the work has the weights. The root's flag stands in its
// weight, so the table is not needed for it.
pub(crate) fn set_fits(head: Head, work: &[u64]) -> bool
    requires { head.used ≤ length work.now }
    ensures { result ≡ set_fits head work.now head.set }
{
    match head.set {
        Set::Empty => true,
        Set::Unit => head.open_places == Flag::NONE,
        Set::Record(root) => {
            root < head.used && flag_in(work[root as usize]) == head.open_places as u64
        }
    }
}
