// What becomes of one record where a place is fixed at a node: the paper's image. Then the images that
// stand in the work, as numbers of sets.
ghost use Rattle.std.specs.Prelude.{◌≡◌};
ghost use Rattle.table.specs.Made.{Makes};
ghost use Rattle.fix.specs.Images.{IsKind, image_with, operands_in, set_at, twice_in, InWork, OperandsInWork};

use paper::kinds::{RecordKind, UnknownKind};
use paper::{Record, Set};
use places::{has_place, without_place};
use table::{Made, product, set_of, single, union};

// The place, by its index, and the node that it is fixed at.
#[derive(Clone, Copy, Debug, PartialEq, Eq)]
pub(crate) struct Fixing {
    pub(crate) index: usize,
    pub(crate) node: u16,
}

impl Fixing {
    // The image of a record whose operands have become the sets `left` and `right`. A record without the
    // place goes the same way: its flag stays, and so it is copied.
    pub(crate) fn image(self, entry: Record, left: Set, right: Set) -> Made
        requires { IsKind entry.kind }
        ensures { Makes (image_with self entry left right) result }
    {
        let flag = without_place(entry.flag, self.index);
        match RecordKind::try_from(entry.kind) {
            Ok(RecordKind::Single) => {
                // A single of another node has no row with this one at the place.
                if has_place(entry.flag, self.index) && entry.node != self.node {
                    return Made::Standing(Set::Empty);
                }
                single(entry.node, flag)
            }
            Ok(RecordKind::Union) => union(entry.node, flag, left, right),
            Ok(RecordKind::Product) => product(entry.node, flag, left, right),
            Err(UnknownKind) => unreachable!(),
        }
    }
}

// The image of a record, which the work has.
pub(crate) fn image_in(work: &[u64], i: u16) -> Set
    requires { InWork i work.now }
    ensures { result ≡ set_at work.now i }
{
    // The number of a set is at most 60,001, so it fits.
    set_of(work[i as usize] as u16)
}

// What the operands of a record have become; a single has none. Their numbers are not tested: in a sound
// set they are lower than the record's, and so the work has their images.
pub(crate) fn operands(entry: Record, work: &[u64]) -> (Set, Set)
    requires { OperandsInWork entry work.now }
    ensures { result ≡ operands_in entry work.now }
{
    if entry.kind == RecordKind::Single as u16 {
        return (Set::Empty, Set::Empty);
    }
    (image_in(work, entry.left), image_in(work, entry.right))
}

// Whether it is a union, and both its operands have become unit.
pub(crate) fn is_twice(entry: Record, left: Set, right: Set) -> bool
    ensures { result ≡ twice_in entry left right }
{
    entry.kind == RecordKind::Union as u16 && left == Set::Unit && right == Set::Unit
}
