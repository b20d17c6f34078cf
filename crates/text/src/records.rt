// The image as it grows: pads, and the branches of labels that have waited.
ghost use Rattle.std.specs.Prelude.{[], ◌∷◌, ◌++◌, ◌+◌, ◌*◌, ◌≡◌, ◌≤◌, length};
ghost use Rattle.text.specs.Bounds.{longest_image};
ghost use Rattle.text.specs.Pass.{closed, inner, outer, pad_if, siblings_end};
ghost use Rattle.text.specs.Room.{one};

use crate::LONGEST_IMAGE;
use crate::image::RECORD;
use crate::label::Label;
use crate::stack::Stack;
use paper::kinds::{BRANCH, LEAF};
use paper::limits::{MOST_WRITTEN_NODES, PAD_LABEL};
use std::marker::Model;

// The last read before the others.
pub(crate) type Labels<'a> = Stack<'a, Label, MOST_WRITTEN_NODES>;

// So many bytes of the array, which is lent, are the image by now.
#[derive(Drop)]
pub(crate) struct Image<'a> {
    bytes: &'a mut [u8; LONGEST_IMAGE],
    end: usize,
}

impl<'a> Model for Image<'a> {
    ghost use Rattle.std.specs.Prelude.{List, ℕ, ◌≡◌, ◌≤◌, length, take};
    ghost use Rattle.text.specs.Bounds.{longest_image};

    ghost Value = { List ℕ };

    ghost view = { λ i. take i.end i.bytes.now };

    ghost invariant = { λ i. (i.end ≤ longest_image) × (length i.bytes.now ≡ longest_image) };
}

impl<'a> Image<'a> {
    pub(crate) fn new(bytes: &'a mut [u8; LONGEST_IMAGE]) -> Self
        ensures { result ≡ [] }
    {
        Image { bytes, end: 0 }
    }

    fn put(&mut self, kind: u8, label: u8)
        requires { length self.old + 2 ≤ longest_image }
        ensures { self.new ≡ self.old ++ kind ∷ label ∷ [] }
    {
        let end = self.end;
        self.bytes[end] = kind;
        self.bytes[end + 1] = label;
        self.end = end + RECORD;
    }

    // The pad of a number that turns out to have no brackets.
    pub(crate) fn put_pad_if(&mut self, may_open: bool)
        requires { length self.old + 2 ≤ longest_image }
        ensures { self.new ≡ self.old ++ pad_if may_open }
    {
        if may_open {
            self.put(LEAF, PAD_LABEL);
        }
    }

    pub(crate) fn as_slice(&self) -> &[u8]
        ensures { result.now ≡ self.now }
    {
        &self.bytes[..self.end]
    }
}

// Where siblings end: the last of them has no next sibling, and, if it stands just before, no child. Then come the branches of the labels
// inside the innermost open brackets, the last label first, and these brackets are closed.
pub(crate) fn end_siblings(may_open: bool, waiting: &mut Labels, image: &mut Image)
    requires { length image.old + 2 * one may_open + 2 + 2 * length waiting.old ≤ longest_image }
    ensures labels { waiting.new ≡ closed (outer waiting.old) }
    ensures records { image.new ≡ image.old ++ siblings_end may_open (inner waiting.old) }
{
    image.put_pad_if(may_open);
    image.put(LEAF, PAD_LABEL);
    // Ends where no label waits at the latest: each turn takes one.
    while let Some(label) = waiting.pop() {
        if label.is_open() {
            waiting.push(label.closed());
            return;
        }
        image.put(BRANCH, label.number().value());
    }
}
