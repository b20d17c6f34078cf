// A slot is a number of the lent work, and its low 16 bits are a set. The slots of one state in a frame
// are a shelf, a slot for each flag. Above its set the number of a shelf's first slot has the shelf's
// marks: a bit for each flag at which the shelf may have a set that is not empty, so that a rule looks at
// no other. Without them it would look at each of its splits, of which there may be 81.
ghost use Rattle.std.specs.Prelude.{◌+◌, ◌<◌, length};
ghost use Rattle.building.specs.Bounds.{most_flags, slot_sets};
ghost use Rattle.building.specs.Slots.{Puts};

// How many numbers a set has room for, 16 bits: a slot's number % SETS is its set, that of a shelf's
// first slot / SETS are the shelf's marks. The sets that are made have numbers up to 60,389 (batch.rt).
pub(crate) const SETS: u64 = 65536;

// A set put into the slot of a flag of a shelf, and the flag marked. No mark is ever taken back: a slot
// that has a set keeps one until its frame is cleared or written over whole, marks and all.
pub(crate) fn put_set(work: &mut [u64], shelf: usize, flag: usize, set: u64)
    requires flag_in_bounds { (shelf + flag < length work.old) × (flag < most_flags) }
    requires set_lt_slot_sets { set < slot_sets }
    ensures { Puts shelf flag set work.old work.new }
{
    // There are at most 16 flags, so that the highest mark is bit 31.
    work[shelf] |= SETS << flag;
    // At flag 0 the set stands in the number that has the marks, which stay.
    if flag == 0 {
        work[shelf] = work[shelf] / SETS * SETS + set;
        return;
    }
    // What stands above another slot's set is nothing: marks stand in a shelf's first number alone.
    let at = shelf + flag;
    work[at] = set;
}
