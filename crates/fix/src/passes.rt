// The two passes over the used records of the source: the first finds the images, the second makes the
// new records. There are two since a refusal leaves the target as it was, and 12 is found by the images.
// They alone read and write the lent tables; what is done with a record stands in image.rt.
ghost use Rattle.std.specs.Prelude.{◌≡◌, ◌≤◌, length};
ghost use Rattle.paper.specs.Refusals.{over};
ghost use Rattle.fix.specs.Passes.{Fitting, Imaged, Numbered, new_records};

use crate::image::{Fixing, is_twice, operands};
use paper::{Record, Refusal};
use table::{FIRST_RECORD, Made, number_of};

// The image of each record, in the work, where it takes the place of the weight; or refusal 12, at a
// union of unit and unit.
pub(crate) fn images(used: &[Record], fixing: Fixing, work: &mut [u64]) -> Result<(), Refusal>
    requires { Fitting used.now work.old }
    ensures { Imaged fixing used.now work.old result work.new }
{
    // How many records the new table has so far.
    let mut made = 0;
    for (at, &entry) in used.iter().enumerate() {
        let (left, right) = operands(entry, work);
        if is_twice(entry, left, right) {
            return Err(Refusal::UnitTwice);
        }
        match fixing.image(entry, left, right) {
            Made::Standing(set) => work[at] = number_of(set),
            Made::New(_) => {
                work[at] = made + FIRST_RECORD;
                made += 1;
            }
        }
    }
    Ok(())
}

// The new records, in the target, and how many they are. The work has the images of all: where a record
// makes a new one, its image is the next of the new table. Any other image is a set that stands already,
// and the record is passed over.
pub(crate) fn records(used: &[Record], fixing: Fixing, work: &[u64], target: &mut [Record]) -> u16
    requires fitting { Fitting used.now work.now }
    requires numbered { Numbered fixing used.now work.now }
    requires entries { length used.now ≤ length target.old }
    ensures made { result ≡ length (new_records fixing used.now) }
    ensures written { target.new ≡ over (new_records fixing used.now) target.old }
{
    let mut made: u16 = 0;
    for (at, &entry) in used.iter().enumerate() {
        if work[at] == made as u64 + FIRST_RECORD {
            // Made once more, by the same images as in the first pass: the work has kept them.
            let (left, right) = operands(entry, work);
            if let Made::New(new) = fixing.image(entry, left, right) {
                target[made as usize] = new;
                made += 1;
            }
        }
    }
    made
}
