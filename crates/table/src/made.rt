// The paper's three ways to make a set. Each makes at most one record, and also where an equal one stands already; whoever calls
// puts it into the table, as a fix does. The building has its own three, of numbers and into its batch (building/src/batch.rt):
// by these a build took 1.4 times the instructions.
ghost use Rattle.paper.specs.Building.{single_record, product_record, union_record};
ghost use Rattle.table.specs.Made.{Makes, OneOf};
ghost use Rattle.table.specs.Sets.{unit};

use paper::kinds::RecordKind;
use paper::{Flag, Record, Set};

// A set that stands already, or the record that is new: its set is that of the next entry of the table.
#[derive(Clone, Copy, Debug, PartialEq, Eq)]
pub enum Made {
    Standing(Set),
    New(Record),
}

// The node at each place of the flag; unit if it has none, since a record's flag is never 0.
pub fn single(node: u16, flag: u16) -> Made
    ensures makes { Makes (single_record node flag) result }
    ensures standing { OneOf unit unit result }
{
    if flag == Flag::NONE {
        return Made::Standing(Set::Unit);
    }
    Made::New(Record {
        kind: RecordKind::Single as u16,
        node,
        flag,
        ..Record::BLANK
    })
}

// Each row of the left set with each of the right: with unit the other factor, with empty empty.
pub fn product(node: u16, flag: u16, left: Set, right: Set) -> Made
    ensures makes { Makes (product_record node flag left right) result }
    ensures standing { OneOf left right result }
{
    match (left, right) {
        (Set::Empty, _) | (_, Set::Unit) => Made::Standing(left),
        (Set::Unit, _) | (_, Set::Empty) => Made::Standing(right),
        (Set::Record(left), Set::Record(right)) => Made::New(Record {
            kind: RecordKind::Product as u16,
            node,
            left,
            right,
            flag,
        }),
    }
}

// The rows of the left set and then those of the right: with empty the other set. Unit meets only empty, since sets that are
// united share no row and unit has the only row without a place; else it would be the left set.
pub fn union(node: u16, flag: u16, left: Set, right: Set) -> Made
    ensures makes { Makes (union_record node flag left right) result }
    ensures standing { OneOf left right result }
{
    match (left, right) {
        (Set::Empty, _) => Made::Standing(right),
        (Set::Unit, _) | (_, Set::Empty | Set::Unit) => Made::Standing(left),
        (Set::Record(left), Set::Record(right)) => Made::New(Record {
            kind: RecordKind::Union as u16,
            node,
            left,
            right,
            flag,
        }),
    }
}
