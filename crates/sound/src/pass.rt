// The pass over the used records, between the two tests of the head.
ghost use Rattle.std.specs.Prelude.{◌≤◌, length};
ghost use Rattle.sound.specs.Passing.{Passed, Judged};

use crate::head::{head_fits, set_fits};
use crate::record::record_weight;
use paper::{Head, Record};

// Whether the set is sound. Then the work has the weights of its used records.
pub(crate) fn passes(head: Head, table: &[Record], work: &mut [u64]) -> bool
    requires { head.used ≤ length work.old }
    ensures { Judged head table.now work.old result work.new }
{
    if !head_fits(head, table.len()) {
        return false;
    }
    weigh_records(head, table, work) && set_fits(head, work)
}

// Whether all used records are sound. The weight of each goes into the work, by which those after it
// are tested. It stops at the first that is not sound; the weights before it stay, for `weigh` to clear.
fn weigh_records(head: Head, table: &[Record], work: &mut [u64]) -> bool
    requires few_places { head.arity ≤ 4 }
    requires used_there { head.used ≤ length table.now }
    requires room { head.used ≤ length work.old }
    ensures { Passed head table.now work.old result work.new }
{
    for (at, &record) in table[..head.used as usize].iter().enumerate() {
        let Some(weight) = record_weight(record, at, head, work) else {
            return false;
        };
        work[at] = weight;
    }
    true
}
