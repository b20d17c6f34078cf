// Test trees as bracketed text, and back.
#![tactic(auto)]

ghost use Rattle.text.specs.Face.{MakesText, MakesTree};

mod bytes;
mod canonical;
mod image;
mod label;
mod node;
mod number;
mod pass;
mod records;
mod stack;
mod tokens;

use crate::canonical::{LONGEST_TEXT, put_text, write_text};
use crate::image::{RECORD, is_image};
use crate::pass::read_text;
use paper::Refusal;
use paper::limits::MOST_WRITTEN_NODES;

// At most so many bytes: a branch for each written node, and one pad more. An output of so many is never too short for an image.
pub const LONGEST_IMAGE: usize = RECORD * (2 * MOST_WRITTEN_NODES + 1);

// Text to tree: refusals 15 and 10. The image is made apart while the text is judged, since a refusal leaves the output as it was.
pub fn text_to_tree(text: &[u8], out: &mut [u8]) -> Result<usize, Refusal>
    ensures { MakesTree text.now out.old result out.new }
{
    read_text(text, out)
}

// The way back, into the canonical text: refusals 15 and 10. The text is made apart, so that an output that is too short stays as it is.
pub fn tree_to_text(tree: &[u8], out: &mut [u8]) -> Result<usize, Refusal>
    ensures { MakesText tree.now out.old result out.new }
{
    if !is_image(tree) {
        return Err(Refusal::Text);
    }
    let mut bytes = [0; LONGEST_TEXT];
    let text = write_text(tree, &mut bytes);
    put_text(text, out)
}
