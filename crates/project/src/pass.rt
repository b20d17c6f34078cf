// The pass: downwards from the root, over the records under it, since not every used record is; the
// singles that are met keep their nodes in the work. A record under the root lists some row, and each
// of its rows is part of one of the root's: so what it has at the place stands there in some row of the
// set.
ghost use Rattle.std.specs.Prelude.{◌≡◌};
ghost use Rattle.project.specs.Passing.{InWork, Ready, cells_after, kept, nodes_kept};

use paper::kinds::{RecordKind, UnknownKind};
use paper::{Head, Record, Set};
use places::has_place;
use sound::clear;

// The cell of a record under the root that is still to be looked at. The work is lent as numbers, so a
// single that is passed may keep the same number, for node 0; but a record's turn comes once.
const MARKED: u64 = 1;

// The nodes at the place with this index, each in the cell of a single that has it there; the other
// cells are 0. Operands have lower numbers, so a record has its mark, if it gets one, when its turn
// comes.
pub(crate) fn keep_nodes(head: Head, table: &[Record], work: &mut [u64], index: usize)
    requires { Ready head table.now work.old }
    ensures { work.new ≡ nodes_kept index head table.now work.old }
{
    // The weights, which are not needed, go before the root has its mark.
    clear(work, head.used as usize);
    // Empty has no row; unit has no open place, and has been refused 7.
    if let Set::Record(number) = head.set {
        let root = number as usize;
        work[root] = MARKED;
        for at in (0..=root).rev() {
            look(at, table[at], index, work);
        }
    }
}

// A record without a mark is passed over. A single keeps its node; a union or a product hands its mark
// on to both operands, which are under the root with it.
fn look(at: usize, entry: Record, index: usize, work: &mut [u64])
    requires { InWork at entry work.old }
    ensures { work.new ≡ cells_after index at entry work.old }
{
    if work[at] != MARKED {
        return;
    }
    match RecordKind::try_from(entry.kind) {
        Ok(RecordKind::Single) => work[at] = kept(entry, index),
        Ok(RecordKind::Union | RecordKind::Product) => {
            // Its own mark goes first: its cell keeps no node.
            work[at] = 0;
            work[entry.left as usize] = MARKED;
            work[entry.right as usize] = MARKED;
        }
        Err(UnknownKind) => unreachable!(),
    }
}

// What a single under the root keeps in its cell: 1 more than its node, since 0 says that there is
// none.
fn kept(entry: Record, index: usize) -> u64
    ensures { result ≡ kept index entry }
{
    if has_place(entry.flag, index) {
        u64::from(entry.node) + 1
    } else {
        0
    }
}
