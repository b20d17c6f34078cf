// One rule at one node: the records that it makes go into a batch, the sets into the shelf of the rule's
// state in the node's frame. First a leaf rule and whether it is used; then a branch rule: one split, a flag
// for the left child and one for the right one, the splits with one left flag, and all of them. Which flags
// share no bit the notes of the table of triples tell (splits.rt).
ghost use Rattle.std.specs.Prelude.{◌≡◌, ◌+◌, ◌*◌, ◌≤◌, ◌<◌, length};
ghost use Rattle.std.specs.Int.Bits.{bit_and};
ghost use Rattle.paper.specs.Building.{can_stand, triple, record_sets};
ghost use Rattle.building.specs.Batch.{set_in, Makes, RoomFor};
ghost use Rattle.building.specs.Bounds.{batch_records, field_numbers, most_flags, waiting_records, split_records, triple_records};
ghost use Rattle.building.specs.Rules.{split_at, flags_at, Unites, Leaves, Branches, Room, Runs};
ghost use Rattle.building.specs.Slots.{slot_at};
ghost use Rattle.building.specs.Splits.{Noted};

use crate::batch::{Made, product, single, union};
use crate::slot::{SETS, put_set};
use crate::splits::{free_beside, free_marks};
use paper::Flag;
use paper::limits::PAD_LABEL;
use table::EMPTY;

// A branch rule at a node: the records in the table, the node, how many flags there are, the rule's own
// flag, and where in work the shelves of its left state, its right state and the state that it names
// start. The last is behind the other two, which stand in the frames below the node's.
#[derive(Clone, Copy, Debug, PartialEq, Eq)]
pub(crate) struct Branch {
    pub(crate) used: usize,
    pub(crate) node: usize,
    pub(crate) size: usize,
    pub(crate) own: usize,
    pub(crate) left: usize,
    pub(crate) right: usize,
    pub(crate) to: usize,
}

// The flags of a split's two children, and the numbers of their sets.
#[derive(Clone, Copy, Debug, PartialEq, Eq)]
pub(crate) struct Halves {
    pub(crate) left_flag: usize,
    pub(crate) right_flag: usize,
    pub(crate) left: u64,
    pub(crate) right: u64,
}

// Whether a leaf of this label can stand at the places of this flag. A pad stands in no row, so that of its
// rules the one with no place is used alone; a branch of its label is no pad, and is not asked here.
pub(crate) fn can_stand(label: u8, flag: usize) -> bool
    ensures { result ≡ can_stand label flag }
{
    label != PAD_LABEL || flag == Flag::NONE as usize
}

// A leaf rule that matches and is used: the single of its flag, put into its slot. It is not united with
// what stands there: a second rule for this label and flag would have been refused with 4, so that is empty.
pub(crate) fn leaf_rule(
    batch: &mut [u16],
    work: &mut [u64],
    k: usize,
    used: usize,
    node: u16,
    flag: usize,
    to: usize,
) -> usize
    requires room_for { RoomFor 1 used k batch.old }
    requires flag_lt_most_flags { flag < most_flags }
    requires flag_in_bounds { to + flag < length work.old }
    ensures { Leaves node flag to used k batch.old work.old result batch.new work.new }
{
    let made = single(batch, k, used, node, flag);
    put_set(work, to, flag, made.set);
    made.count
}

// The single of the own flag times left, times right: at most three records, in the paper's order. With
// own flag 0 the single is unit and makes none, nor does a product with it. The states of the split do not
// matter here.
fn triple(batch: &mut [u16], k: usize, rule: Branch, of: Halves) -> Made
    requires room_for { RoomFor triple_records rule.used k batch.old }
    requires flag_bound { (rule.own + of.left_flag + of.right_flag < most_flags) × (rule.node < field_numbers) }
    requires left_bound { (of.left ≤ rule.used + k + 1) × (of.right ≤ rule.used + k + 1) }
    ensures { Makes (triple record_sets rule.node (split_at rule.own 0 0 0 (of.left_flag, of.right_flag)) (set_in of.left) (set_in of.right)) triple_records
        rule.used k batch.old result batch.new }
{
    let used = rule.used;
    let node = rule.node as u16;
    let flag = rule.own + of.left_flag;
    let alone = single(batch, k, used, node, rule.own);
    let inner = product(batch, alone.count, used, node, flag, alone.set, of.left);
    let flag = flag + of.right_flag;
    product(batch, inner.count, used, node, flag, inner.set, of.right)
}

// A split, united on the right with the slot of its three flags together. At most four records: those of the
// triple, and the union, unless the slot was empty.
fn split(batch: &mut [u16], work: &mut [u64], k: usize, rule: Branch, of: Halves) -> usize
    requires room_for { RoomFor split_records rule.used k batch.old }
    requires flag_bound { (rule.own + of.left_flag + of.right_flag < most_flags) × (rule.node < field_numbers) }
    requires left_bound { (of.left ≤ rule.used + k + 1) × (of.right ≤ rule.used + k + 1) }
    requires flag_in_bounds { (rule.to + (rule.own + of.left_flag + of.right_flag) < length work.old)
        × (slot_at work.old (rule.to + (rule.own + of.left_flag + of.right_flag)) ≤ rule.used + k + 1) }
    ensures { Unites rule of.left_flag of.right_flag of.left of.right k batch.old work.old result batch.new work.new }
{
    let used = rule.used;
    let node = rule.node as u16;
    // The three share no bit, so that their sum is the flag of all their places.
    let flag = rule.own + of.left_flag + of.right_flag;
    let to = rule.to;
    let old = work[to + flag] % SETS;
    let made = triple(batch, k, rule, of);
    let whole = union(batch, made.count, used, node, flag, old, made.set);
    put_set(work, to, flag, whole.set);
    whole.count
}

// The splits of a branch rule with one left flag, unless the left child's slot is empty: for each right flag
// ascending that shares no bit and at which the right child's slot is not empty. Such a flag is marked, and
// the notes have it: these marks are taken one by one, the lowest first. The loop ends since each turn
// takes a mark away. The rule writes its own shelf alone, so that what is read of the children's stays the
// same.
fn beside(
    batch: &mut [u16],
    work: &mut [u64],
    notes: &[u16],
    k: usize,
    rule: Branch,
    left_flag: usize,
) -> usize
    requires room { Room rule k batch.old work.old × Noted rule.size notes.now }
    requires left_flag_lt_size { (left_flag < rule.size) × (bit_and rule.own left_flag ≡ 0) }
    requires left_flag_bound { k + split_records * length (flags_at rule.own rule.size left_flag) ≤ batch_records }
    ensures { Runs (flags_at rule.own rule.size left_flag) rule k
        batch.old work.old result batch.new work.new }
{
    let left = work[rule.left + left_flag] % SETS;
    if left == EMPTY {
        return k;
    }
    let mut count = k;
    // Own flag and left flag share no bit: their sum has the bits of both.
    let mut marks = free_beside(notes, rule.own + left_flag, work[rule.right] / SETS);
    while marks != 0 {
        // The lowest mark that is left; the last line of the turn takes it away.
        let right_flag = marks.trailing_zeros() as usize;
        let right = work[rule.right + right_flag] % SETS;
        // What is proved of the marks is only that a slot without one is empty.
        if right != EMPTY {
            let of = Halves {
                left_flag,
                right_flag,
                left,
                right,
            };
            count = split(batch, work, count, rule, of);
        }
        marks &= marks - 1;
    }
    count
}

// A branch rule that matches: its splits, for each left flag ascending that shares no bit with the own flag and
// then for each such right flag. The marks of the left shelf are taken likewise, and the loop ends likewise. All
// splits together make at most RULE_RECORDS: with no more than WAITING_RECORDS in the batch there is room for them.
pub(crate) fn branch_rule(
    batch: &mut [u16],
    work: &mut [u64],
    notes: &[u16],
    k: usize,
    rule: Branch,
) -> usize
    requires room { Room rule k batch.old work.old × Noted rule.size notes.now }
    requires k_le_waiting_records { k ≤ waiting_records }
    ensures { Branches rule k batch.old work.old result batch.new work.new }
{
    // Many rules have nothing on one side: they are passed over here, by one look at each of the two shelves.
    if work[rule.right] / SETS == 0 {
        return k;
    }
    let mut count = k;
    let mut marks = free_marks(notes, rule.own, work[rule.left] / SETS);
    while marks != 0 {
        let left_flag = marks.trailing_zeros() as usize;
        count = beside(batch, work, notes, count, rule, left_flag);
        marks &= marks - 1;
    }
    count
}
