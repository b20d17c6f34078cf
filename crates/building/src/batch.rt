// A batch holds the records that turns make before they go into the table. The paper names this form ('The
// shape of some places'): thin functions over the lent slice of structs, after a core on plain numbers. So
// everything is made here, and one function, `table::store`, copies it.
// First the limits of a batch and what its numbers mean; then a record put into it; then the paper's three
// ways to make a set, each of which makes at most one record.
// `table` has the three for sets as an enum, and with these a build was tried: it proves, and a tree of 1,001
// nodes with Q takes 1.42 times the instructions. So they stand here once more, for numbers, as slots have them.
//
// The table has `used` records, at most 60,000, and the batch k more, at most 388, which are numbered on.
// So the number of a record is at most 60,387 and fits its field; that of its set, two more, fits a slot.
ghost use Rattle.std.specs.Prelude.{[], ◌∷◌, ◌++◌, ◌≡◌, ◌+◌, ◌*◌, ◌≤◌, ◌<◌, length};
ghost use Rattle.paper.specs.Building.{new_record, single_record, product_record, union_record};
ghost use Rattle.building.specs.Batch.{records_in, set_in, Makes, RoomFor};
ghost use Rattle.building.specs.Bounds.{most_flags, record_numbers};

use paper::Record;
use paper::kinds::RecordKind;
use table::{EMPTY, FIRST_RECORD, RECORD_NUMBERS, UNIT};

// A split makes at most a single, two products and a union.
const SPLIT_RECORDS: usize = 4;

// A branch rule has at most 3 to the power of 4 splits: of at most four places, each that is not in the
// rule's own flag goes to the left child, to the right one or to neither.
const RULE_SPLITS: usize = 81;

// So one rule makes at most 324 records. (A leaf rule makes one, or none.)
const RULE_RECORDS: usize = SPLIT_RECORDS * RULE_SPLITS;

// Another rule is begun only while at most so many records wait in the batch, and then its own fit, however
// many they are. So few, since a local array is cleared where it is made, and a build of a small tree would
// feel a large one; so many, that many rules share one store.
pub(crate) const WAITING_RECORDS: usize = 64;

const BATCH_RECORDS: usize = WAITING_RECORDS + RULE_RECORDS;

pub(crate) const BATCH_NUMBERS: usize = RECORD_NUMBERS * BATCH_RECORDS;

// How many records stand in the batch, and the set that was made.
#[derive(Clone, Copy, Debug, PartialEq, Eq)]
pub(crate) struct Made {
    pub(crate) count: usize,
    pub(crate) set: u64,
}

// The record `new`, put behind the first k of the batch.
fn put(batch: &mut [u16], k: usize, new: Record)
    requires { record_numbers * (k + 1) ≤ length batch.old }
    ensures { records_in (k + 1) batch.new ≡ records_in k batch.old ++ (new ∷ []) }
{
    let at = RECORD_NUMBERS * k;
    batch[at] = new.kind;
    batch[at + 1] = new.node;
    batch[at + 2] = new.left;
    batch[at + 3] = new.right;
    batch[at + 4] = new.flag;
}

// The record `new` as one more, and its set. Every record of a build is made here; an equal one that
// stands already is not looked for, since the paper makes them anew.
fn new_record(batch: &mut [u16], k: usize, used: usize, new: Record) -> Made
    requires { RoomFor 1 used k batch.old }
    ensures { Makes (new_record new) 1 used k batch.old result batch.new }
{
    put(batch, k, new);
    Made {
        count: k + 1,
        set: (used + k) as u64 + FIRST_RECORD,
    }
}

// The node at each place of the flag; unit if it has none, since a record's flag is never 0.
pub(crate) fn single(batch: &mut [u16], k: usize, used: usize, node: u16, flag: usize) -> Made
    requires room_for { RoomFor 1 used k batch.old }
    requires flag_lt_most_flags { flag < most_flags }
    ensures { Makes (single_record node flag) 1 used k batch.old result batch.new }
{
    if flag == 0 {
        return Made {
            count: k,
            set: UNIT,
        };
    }
    let new = Record {
        kind: RecordKind::Single as u16,
        node,
        left: 0,
        right: 0,
        flag: flag as u16,
    };
    new_record(batch, k, used, new)
}

// Each row of the left set with each of the right: with unit the other factor, with empty empty. Empty
// does not come, since a split with an empty slot is skipped; the paper's product says what it would be.
pub(crate) fn product(
    batch: &mut [u16],
    k: usize,
    used: usize,
    node: u16,
    flag: usize,
    left: u64,
    right: u64,
) -> Made
    requires room_for { RoomFor 1 used k batch.old }
    requires flag_lt_most_flags { flag < most_flags }
    requires left_bound { (left ≤ used + k + 1) × (right ≤ used + k + 1) }
    ensures { Makes (product_record node flag (set_in left) (set_in right)) 1 used k batch.old result batch.new }
{
    // Both times the answer is the left set: one test for the two, and the same for the right below.
    if left == EMPTY || right == UNIT {
        return Made {
            count: k,
            set: left,
        };
    }
    if left == UNIT || right == EMPTY {
        return Made {
            count: k,
            set: right,
        };
    }
    let new = Record {
        kind: RecordKind::Product as u16,
        node,
        left: (left - FIRST_RECORD) as u16,
        right: (right - FIRST_RECORD) as u16,
        flag: flag as u16,
    };
    new_record(batch, k, used, new)
}

// The rows of the left set and then those of the right: with empty the other set. Unit meets only empty,
// since sets that are united share no row and unit has the only row without a place; else it would be the
// left set.
pub(crate) fn union(
    batch: &mut [u16],
    k: usize,
    used: usize,
    node: u16,
    flag: usize,
    left: u64,
    right: u64,
) -> Made
    requires room_for { RoomFor 1 used k batch.old }
    requires flag_lt_most_flags { flag < most_flags }
    requires left_bound { (left ≤ used + k + 1) × (right ≤ used + k + 1) }
    ensures { Makes (union_record node flag (set_in left) (set_in right)) 1 used k batch.old result batch.new }
{
    if left == EMPTY {
        return Made {
            count: k,
            set: right,
        };
    }
    // The right set is empty, or one of the two is unit.
    if left == UNIT || right < FIRST_RECORD {
        return Made {
            count: k,
            set: left,
        };
    }
    let new = Record {
        kind: RecordKind::Union as u16,
        node,
        left: (left - FIRST_RECORD) as u16,
        right: (right - FIRST_RECORD) as u16,
        flag: flag as u16,
    };
    new_record(batch, k, used, new)
}
