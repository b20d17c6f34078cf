// The tree program: a bracketed text on standard input, its tree records on standard output, or one line with a number. First what is told
// of an input, then handing it on, and last what is read. `text` makes the records, and `lines` the line of a refusal.
#![tactic(auto)]

ghost use Rattle.std.specs.Prelude.{IfErr, IfOk};
ghost use Rattle.paper.specs.Answers.{no_of};
ghost use Rattle.tree.specs.Handing.{HandsOn};
ghost use Rattle.tree.specs.Telling.{Stands, Tells};
ghost use Rattle.lines.specs.Text.{refusal_text};

use crate::handed::{Handed, STDOUT_FILENO, Unwritten};
use lines::{put_refusal, read_full};
use paper::Refusal;
use text::LONGEST_IMAGE;

mod handed;

// The 2,047 written nodes that a tree may have need some 8,000 bytes of text, two digits and two brackets each. The rest is room for
// blanks and comments.
const LONGEST_INPUT: usize = 65536;

// The records of an input stand in the first bytes of the output, and how many they are is answered. An input that is too long is refused
// 14, before any byte of it is looked at. The output holds the records of any text, so refusal 10 is never told.
fn records_of(input: &[u8], out: &mut [u8; LONGEST_IMAGE]) -> Result<usize, Refusal>
    ensures records { IfOk result (λ bytes. Stands input.now bytes out.new) }
    ensures refused { IfErr result (λ why. Tells input.now (refusal_text (no_of why))) }
{
    if input.len() > LONGEST_INPUT {
        return Err(Refusal::LongInput);
    }
    text::text_to_tree(input, out)
}

// What is told of an input stands in the first bytes of the output, and how many they are is answered. A line stands there too, so that it
// needs no buffer of its own, and all is handed on at one place.
fn answer(input: &[u8], out: &mut [u8; LONGEST_IMAGE]) -> usize
    ensures { Stands input.now result out.new }
{
    match records_of(input, out) {
        Ok(bytes) => bytes,
        Err(why) => put_refusal(out, why.into()),
    }
}

// All that is told of an input, handed on in one write.
fn tell<'a>(rt: &HostRuntime, input: &'a [u8]) -> Result<Handed<'a>, Unwritten>
    ensures { IfOk result (HandsOn input.now) }
{
    let mut out = [0; LONGEST_IMAGE];
    let bytes = answer(input, &mut out);
    Handed::nothing(input).hand_on(rt, STDOUT_FILENO, &mut out[..bytes])
}

// One byte more is read than the program takes, to see an input that is too long: `read_full` stops where the buffer is full or the
// input ends. A write that failed was told, and the program ends.
fn main(rt: HostRuntime) {
    let mut input = [0u8; LONGEST_INPUT + 1];
    let n = read_full(&mut rt.stdin(), &mut input);
    let _ = tell(&rt, &input[..n]);
}
