// What a number, an opening and a closing bracket change: what is kept, the labels that wait, the image.
ghost use Rattle.std.specs.Prelude.{◌≡◌};
ghost use Rattle.paper.specs.BracketedText.{closing, number, opening};
ghost use Rattle.text.specs.Pass.{is_full, nothing_kept, step, whole_image};
ghost use Rattle.text.specs.Reading.{step_to};
ghost use Rattle.text.specs.Told.{told};

use crate::LONGEST_IMAGE;
use crate::bytes::copy_to_start;
use crate::label::Label;
use crate::number::Number;
use crate::records::{Image, Labels, end_siblings};
use crate::stack::Stack;
use paper::Refusal;
use paper::limits::MOST_WRITTEN_NODES;
use std::marker::Model;

// The text is outside the rules.
#[derive(Clone, Copy, Debug, PartialEq, Eq)]
pub(crate) struct Fault;

impl From<Fault> for Refusal {
    ghost use Rattle.std.specs.Prelude.{◌≡◌};
    ghost use Rattle.paper.specs.declared.Refusal.TheVariants.{Text};

    ghost from_gives = { λ fault why. why ≡ Text };

    fn from(_: Fault) -> Refusal {
        Refusal::Text
    }
}

// Of the tokens so far: whether a number stands just before, which may have brackets; how many brackets are open, and how many nodes are
// written; the labels that wait; and the image.
#[derive(Drop)]
pub(crate) struct Kept<'a> {
    may_open: bool,
    depth: usize,
    nodes: usize,
    waiting: Labels<'a>,
    image: Image<'a>,
}

impl<'a> Model for Kept<'a> {
    ghost use Rattle.text.specs.Pass.{Kept as TheKept};

    ghost Value = { TheKept };

    ghost use Rattle.text.specs.Room.{Room, kept_in};

    ghost view = { kept_in };

    ghost invariant = { λ k. Room (kept_in k) };
}

impl<'a> Kept<'a> {
    // Before the first token.
    pub(crate) fn new(
        labels: &'a mut [Label; MOST_WRITTEN_NODES],
        bytes: &'a mut [u8; LONGEST_IMAGE],
    ) -> Self
        ensures { result ≡ nothing_kept }
    {
        Kept {
            may_open: false,
            depth: 0,
            nodes: 0,
            waiting: Stack::new(labels),
            image: Image::new(bytes),
        }
    }

    // Whether no number may follow: there is a root already, or there are as many written nodes as there may be.
    fn is_full(&self) -> bool
        ensures { result ≡ is_full self.now }
    {
        (self.depth == 0 && 0 < self.nodes) || MOST_WRITTEN_NODES <= self.nodes
    }

    // A number is a label, and waits. The one just before it has no brackets then.
    pub(crate) fn put_number(&mut self, label: Number) -> Result<(), Fault>
        ensures { step_to result self.new ≡ step self.old (number label) }
    {
        if self.is_full() {
            return Err(Fault);
        }
        self.image.put_pad_if(self.may_open);
        self.waiting.push(Label::new(label));
        self.nodes += 1;
        self.may_open = true;
        Ok(())
    }

    // Brackets stand behind a number only, whose label is the first that waits.
    pub(crate) fn open_brackets(&mut self) -> Result<(), Fault>
        ensures { step_to result self.new ≡ step self.old opening }
    {
        if !self.may_open {
            return Err(Fault);
        }
        if let Some(label) = self.waiting.pop() {
            self.waiting.push(label.opened());
        }
        self.depth += 1;
        self.may_open = false;
        Ok(())
    }

    // The labels inside the brackets have waited long enough.
    pub(crate) fn close_brackets(&mut self) -> Result<(), Fault>
        ensures { step_to result self.new ≡ step self.old closing }
    {
        if self.depth == 0 {
            return Err(Fault);
        }
        end_siblings(self.may_open, &mut self.waiting, &mut self.image);
        self.depth -= 1;
        self.may_open = false;
        Ok(())
    }

    // The image, if the tokens were those of a tree: every bracket is closed, and there is a root.
    pub(crate) fn put_image(self, out: &mut [u8]) -> Result<usize, Refusal>
        ensures { (result, out.new) ≡ told (whole_image self.entry) out.old }
    {
        if self.depth != 0 || self.nodes == 0 {
            return Err(Refusal::Text);
        }
        let mut waiting = self.waiting;
        let mut image = self.image;
        end_siblings(self.may_open, &mut waiting, &mut image);
        copy_to_start(image.as_slice(), out)
    }
}
