// The places of a flag: how many there are, whether one of them is there, the flag without it, and
// whether a place of a head is open. Place 1 has index 0 and the lowest bit.
// No function asks for anything, so each answers for any number, also for one that no sound set has.
// They take a flag as the number that stands in the fields of records and heads, which are C's: as methods
// of `Flag` they would be no plainer, since each call would wrap the field first.
#![tactic(auto)]

ghost use Rattle.std.specs.Prelude.{◌≡◌};
ghost use Rattle.std.specs.Int.Count.{ones};
ghost use Rattle.paper.specs.Questions.{has_place, without};
ghost use Rattle.paper.specs.Refusals.{is_open};

use paper::Head;

// The bits of a flag, which is a u16. The flags of a sound set fill at most four of them.
const BITS: usize = 16;

// How many places a flag has. It takes a u64, since the flags of operands are read from weights.
pub fn filled(flag: u64) -> u32
    ensures { result ≡ ones flag }
{
    u64::count_ones(flag)
}

// Whether the flag has the place with this index. The index is tested first: a shift by all the bits
// or more is an error.
pub fn has_place(flag: u16, index: usize) -> bool
    ensures { result ≡ has_place flag index }
{
    index < BITS && (flag >> index) % 2 == 1
}

// The flag without that place.
pub fn without_place(flag: u16, index: usize) -> u16
    ensures { result ≡ without flag index }
{
    if index < BITS {
        // The place's bit if the flag has it, else 0: so no more is taken away than is there.
        flag - (flag & 1u16 << index)
    } else {
        flag
    }
}

// Whether the place is one from 1 to the arity, and open.
pub fn is_open(head: Head, place: u16) -> bool
    ensures { result ≡ is_open head place }
{
    // Place 0 has no index. Of a head that is not sound, places above the arity may be open too.
    1 <= place && place <= head.arity && has_place(head.open_places, (place - 1) as usize)
}
