// The canonical text of an image. The records are read from the last to the first, so a node comes before its others, and these before its
// children; the text is written from its end to its start.
ghost use Rattle.std.specs.Prelude.{true, ◌++◌, ◌+◌, ◌≡◌, ◌<◌, ◌≤◌, length};
ghost use Rattle.std.proofs.Math.Option.{some};
ghost use Rattle.paper.specs.BracketedText.{decimal};
ghost use Rattle.text.specs.Bounds.{longest_text, most_written};
ghost use Rattle.text.specs.JudgeImage.{accepts_image, image_judged, nothing_read};
ghost use Rattle.text.specs.Told.{told};
ghost use Rattle.text.specs.WriteText.{completed, met, missing};
ghost use Rattle.text.specs.Writing.{Fits, WritesText, after};

use crate::bytes::{BASE, copy_to_start};
use crate::node::{Node, Waiting};
use crate::number::Number;
use crate::stack::Stack;
use paper::Refusal;
use paper::kinds::LEAF;
use paper::limits::MOST_WRITTEN_NODES;

// A written node is at most two digits and two brackets, or a blank instead of these.
const LONGEST_NODE: usize = 4;

pub(crate) const LONGEST_TEXT: usize = MOST_WRITTEN_NODES * LONGEST_NODE;

// The nodes that wait, and what is written of the text.
#[derive(Drop)]
struct Writing<'w, 't> {
    waiting: Stack<'w, Node, MOST_WRITTEN_NODES>,
    text: Stack<'t, u8, LONGEST_TEXT>,
}

impl Writing<'_, '_> {
    // A label in decimal. Labels have at most two digits.
    fn put_label(&mut self, label: Number)
        requires { length (decimal label) + length self.old.text ≤ longest_text }
        ensures waiting { self.new.waiting ≡ self.old.waiting }
        ensures text { self.new.text ≡ decimal label ++ self.old.text }
    {
        let label = label.value();
        if label < BASE {
            self.text.push(b'0' + label);
        } else {
            self.text.push(b'0' + label % BASE);
            self.text.push(b'0' + label / BASE);
        }
    }

    // A tree is complete. If it is the first in brackets, so is the node before them, and so on; the next node that waits has others.
    fn complete(&mut self)
        requires { Fits (completed self.old.waiting) self.old.text }
        ensures { self.new ≡ after (completed self.old.waiting) self.old }
    {
        // Ends where no node waits at the latest: each turn takes one.
        while let Some(node) = self.waiting.pop() {
            match Waiting::from(node) {
                Waiting::Inside(label) => {
                    self.text.push(b'(');
                    self.put_label(label);
                }
                Waiting::Others(label) | Waiting::LastChildren(label) | Waiting::Children(label) =>
                    {
                        self.waiting.push(Node::from(Waiting::Children(label)));
                        return;
                    }
            }
        }
    }

    // A pad: the last node that waits has no others, or it has no children and is complete.
    fn read_pad(&mut self)
        requires { Fits (missing self.old.waiting) self.old.text }
        ensures { self.new ≡ after (missing self.old.waiting) self.old }
    {
        match self.waiting.pop().map(Waiting::from) {
            Some(Waiting::Others(label)) => {
                self.waiting.push(Node::from(Waiting::LastChildren(label)));
            }
            Some(Waiting::LastChildren(label)) => {
                self.put_label(label);
                self.complete();
            }
            // In an image it is not inside its brackets.
            Some(Waiting::Children(label) | Waiting::Inside(label)) => {
                self.text.push(b' ');
                self.put_label(label);
                self.complete();
            }
            None => {}
        }
    }

    // A branch: the last of the others of the last node that waits, or the last of its children, behind which its brackets are closed. The
    // new node waits then.
    fn read_branch(&mut self, label: Number)
        requires room { length self.old.waiting < most_written }
        requires fits { Fits (met label self.old.waiting) self.old.text }
        ensures { self.new ≡ after (met label self.old.waiting) self.old }
    {
        // None waits before the root.
        if let Some(node) = self.waiting.pop() {
            match Waiting::from(node) {
                Waiting::Others(_) => self.waiting.push(node),
                // In an image its brackets are not closed yet.
                Waiting::LastChildren(parent)
                | Waiting::Children(parent)
                | Waiting::Inside(parent) => {
                    self.text.push(b')');
                    self.waiting.push(Node::from(Waiting::Inside(parent)));
                }
            }
        }
        self.waiting.push(Node::from(Waiting::Others(label)));
    }
}

// All of an image. The root stands in the last record, and waits first.
pub(crate) fn write_text<'t>(
    tree: &[u8],
    text: &'t mut [u8; LONGEST_TEXT],
) -> Stack<'t, u8, LONGEST_TEXT>
    requires { accepts_image (image_judged nothing_read tree.now) ≡ true }
    ensures { WritesText tree.now result }
{
    let mut nodes = [Node::BLANK; MOST_WRITTEN_NODES];
    let mut writing = Writing {
        waiting: Stack::new(&mut nodes),
        text: Stack::new(text),
    };
    let mut rest = tree;
    // Ends before the first record: a turn goes over one.
    while let [before @ .., kind, label] = rest {
        if *kind == LEAF {
            writing.read_pad();
        } else {
            writing.read_branch(Number::new(*label));
        }
        rest = before;
    }
    writing.text
}

// The whole text, once it is written, over the start of the output.
pub(crate) fn put_text(text: Stack<'_, u8, LONGEST_TEXT>, out: &mut [u8]) -> Result<usize, Refusal>
    ensures { (result, out.new) ≡ told (some text.entry) out.old }
{
    copy_to_start(text.as_slice(), out)
}
