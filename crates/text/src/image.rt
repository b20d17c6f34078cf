// Whether bytes are wholly the image of a tree that can be written: records of two bytes, read from the first to the last.
// Numbers are enough for it: how many subtrees are unjoined, how many nodes are written, and what the last record is.
ghost use Rattle.std.specs.Prelude.{◌≡◌};
ghost use Rattle.text.specs.JudgeImage.{accepts_image, image_judged, nothing_read};

use paper::kinds::{BRANCH, LEAF};
use paper::limits::{HIGHEST_LABEL, MOST_WRITTEN_NODES, PAD_LABEL};

// A record is a kind and a label.
pub(crate) const RECORD: usize = 2;

pub(crate) fn is_image(tree: &[u8]) -> bool
    ensures { result ≡ accepts_image (image_judged nothing_read tree.now) }
{
    let mut trees: usize = 0;
    let mut nodes: usize = 0;
    // The last record is a pad; it is a branch just behind one, so with no others.
    let mut pad = false;
    let mut single = false;
    let mut rest = tree;
    // Ends behind the last record: a turn goes over one. What comes behind a fault is not read, since it mends nothing.
    while let [kind, label, behind @ ..] = rest {
        match (*kind, *label) {
            (LEAF, PAD_LABEL) => {
                trees += 1;
                single = false;
                pad = true;
            }
            // The record of a written node. It takes the last two subtrees: the children, and the others.
            (BRANCH, 0..=HIGHEST_LABEL) if 2 <= trees => {
                trees -= 1;
                nodes += 1;
                single = pad;
                pad = false;
            }
            _ => return false,
        }
        rest = behind;
    }
    // A byte that is left over is no record. It is one tree, not too large, and its root has no others.
    rest.is_empty() && trees == 1 && single && nodes <= MOST_WRITTEN_NODES
}
