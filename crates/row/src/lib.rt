// Row by number: for each open place a descent to the single that has its node, by the numbers of rows
// that `weigh` has left in the work. The descents stand in `set`; here is what C and Rust call.
#![tactic(auto)]

ghost use Rattle.row.specs.Face.{Numbers};

use crate::set::SoundSet;
use paper::{Head, Record, Refusal};
use sound::{clear, weigh};

mod set;

// The row with this number, one entry a place, in the first entries of `out`. The output may be
// longer: what is behind them stays.
pub fn row(
    head: Head,
    table: &[Record],
    work: &mut [u64],
    number: u64,
    out: &mut [u16],
) -> Result<(), Refusal>
    ensures { Numbers head table.now work.old number out.old result work.new out.new }
{
    weigh(head, table, work)?;
    let set = SoundSet { head, table, work };
    let found = set.find(number, out.len());
    clear(work, head.used as usize);
    let row = found?;
    let arity = head.arity as usize;
    out[..arity].copy_from_slice(&row[..arity]);
    Ok(())
}
