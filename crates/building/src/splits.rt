// What a build notes of the table of triples: for each flag that own flag and left flag make together, the
// right flags that may stand beside it, as a mask, and the others as another. First the masks of one flag,
// then those of all; last the marked flags that the notes leave.
ghost use Rattle.std.specs.Prelude.{◌≡◌, ℕ, ◌≤◌, ◌<◌, ◌^◌, length};
ghost use Rattle.building.specs.Bounds.{most_flags};
ghost use Rattle.building.specs.Splits.{Free, Masked, Noted, all_triples, left_at, note_numbers};

use crate::triples::{LEFTS, MOST_FLAGS, TRIPLE_COUNT, TRIPLES};

// The masks of all flags: those of the flags that share no bit, and behind them those of the others.
pub(crate) const NOTE_NUMBERS: usize = 2 * MOST_FLAGS;

// A flag's two masks: bit b is set in `free` if flag b shares no bit with it, and in `shared` if it does.
#[derive(Clone, Copy, Debug, PartialEq, Eq)]
struct Masks {
    free: u16,
    shared: u16,
}

// The masks of one flag, for the right flags below size. The triples with no own flag in which it is the
// left one begin at `from`, right flags ascending: so each b below size is either that of the triple at
// hand, and then the next one comes to hand, or shares a bit. For a rule with an own flag the flag is that
// of both, own and left, as the paper has it. No mask has a flag of a place that the query lacks.
fn masks_of(triples: &[u16; TRIPLE_COUNT], from: usize, flag: usize, size: usize) -> Masks
    requires triples_value { triples.now ≡ all_triples }
    requires flag_lt_most_flags { (flag < most_flags) × (size ≤ most_flags) }
    requires from_value { from ≡ left_at flag }
    ensures { Masked size flag result.free result.shared }
{
    let first = MOST_FLAGS * flag;
    let mut free = 0u16;
    let mut shared = 0u16;
    let mut i = from;
    for b in 0..size {
        if triples[i] as usize == first + b {
            free |= 1u16 << b;
            i += 1;
        } else {
            shared |= 1u16 << b;
        }
    }
    Masks { free, shared }
}

// The masks of each flag below size. The tables are laid out once, here, and lent: at a variable index a
// constant array is laid out anew at each look-up.
pub(crate) fn note(notes: &mut [u16], size: usize)
    requires { (size ≤ most_flags) × (note_numbers ≤ length notes.old) }
    ensures { Noted size notes.new }
{
    let triples = TRIPLES;
    let lefts = LEFTS;
    for flag in 0..size {
        let masks = masks_of(&triples, lefts[flag] as usize, flag, size);
        notes[flag] = masks.free;
        notes[MOST_FLAGS + flag] = masks.shared;
    }
}

// Of the marked flags those that share no bit with `flag`.
pub(crate) fn free_marks(notes: &[u16], flag: usize, marked: u64) -> u64
    requires { (flag < most_flags) × (note_numbers ≤ length notes.now) }
    ensures { (size : ℕ) → Noted size notes.now → flag < size → Free size flag marked result }
{
    marked & (notes[flag] as u64)
}

// The same, where the flag is known late: few rules meet a marked flag that shares a bit with it, and a
// branch that the processor foretells is not waited for, as the mask would be. Asked of the first mask, the
// compiler would make one operation of both again: so there is a second.
pub(crate) fn free_beside(notes: &[u16], flag: usize, marked: u64) -> u64
    requires { (flag < most_flags) × (note_numbers ≤ length notes.now) }
    ensures { (size : ℕ) → Noted size notes.now → flag < size → marked < 2 ^ size → Free size flag marked result }
{
    if marked & (notes[MOST_FLAGS + flag] as u64) == 0 {
        return marked;
    }
    free_marks(notes, flag, marked)
}
