// The length of a body, by its kind: the table, then the function that looks a length up. Where a
// record ends is asked here and nowhere else.
ghost use Rattle.std.specs.Prelude.{◌≡◌};
ghost use Rattle.paper.specs.Stream.{body_length};

use paper::kinds::{BRANCH, BRANCH_RULE, LEAF, LEAF_RULE};

// The length of a body, at its kind, as far as the highest one. A kind that the paper does not have
// gets no body: it is refused where it stands, so no answer of a build depends on that.
const LENGTHS: [u8; 20] = [0, 1, 1, 0, 0, 0, 0, 0, 0, 0, 0, 0, 0, 0, 0, 0, 2, 3, 5, 1];

// At a number that stands here the compiler looks the length up, at any other the table is laid out
// anew at each call: so the kinds that come often have a line of their own, the rules first. There
// the index is a number: the name of a kind would have to be cast, and the cast proved.
pub fn body_length(kind: u8) -> usize
    ensures { result ≡ body_length kind }
{
    match kind {
        BRANCH_RULE => usize::from(LENGTHS[18]),
        LEAF_RULE => usize::from(LENGTHS[17]),
        LEAF => usize::from(LENGTHS[1]),
        BRANCH => usize::from(LENGTHS[2]),
        // Behind the table's end no kind is known.
        _ => LENGTHS
            .get(usize::from(kind))
            .copied()
            .map_or(0, usize::from),
    }
}
