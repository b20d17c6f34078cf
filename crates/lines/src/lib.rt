// Text in a buffer: a byte, a number, a line of a word and a number, the line of a refusal. First in a `Text`, of a fixed size, with which
// `list` writes; then in any buffer, behind its first `at` bytes, the line of a refusal from its start; last, how both programs read and
// write. What has no room is left out whole, so none asks for anything; who has the room knows that it stands (proofs/Putting, PuttingAt).
#![tactic(auto)]

ghost use Rattle.std.specs.Prelude.{[], ◌∷◌, ◌≡◌, ◌+◌, ◌≤◌, length, take, OnOk};
ghost use Rattle.std.specs.Io.KnownBytes.{Appends, Consumes};
ghost use Rattle.io.specs.Counts.{IsPrefixLen};
ghost use Rattle.paper.specs.Answers.{no_of_stream};
ghost use Rattle.lines.specs.Put.{put, put_fact, put_refusal};
ghost use Rattle.lines.specs.PutAt.{put_at, put_fact_at, put_refusal_at};
ghost use Rattle.lines.specs.Text.{number_text};

use paper::StreamRefusal;
use std::io::{ErrorKind, Read, Write};
use std::marker::Model;

// The digits of a number below 2 to the power of 64, at most.
pub const LONGEST_NUMBER: usize = 20;

// The line of a refusal, at most.
pub const LONGEST_REFUSAL: usize = REFUSED.len() + LONGEST_NUMBER + AT.len() + LONGEST_NUMBER + 1;

const REFUSED: &[u8] = b"refused ";

const AT: &[u8] = b" at ";

// A text of at most `SIZE` bytes, which stands in the value itself: nothing is allocated.
#[derive(Drop)]
pub struct Text<const SIZE: usize> {
    buffer: [u8; SIZE],
    length: usize,
}

// A contract sees the bytes that were put.
impl<const SIZE: usize> Model for Text<SIZE> {
    ghost use Rattle.std.specs.Prelude.{List, ℕ, ◌≤◌, take};

    ghost Value = { List ℕ };

    ghost view = { λ text. take text.length text.buffer };

    ghost invariant = { λ text. text.length ≤ SIZE };
}

impl<const SIZE: usize> Text<SIZE> {
    pub fn new() -> Self
        ensures { result ≡ [] }
    {
        Text {
            buffer: [0; SIZE],
            length: 0,
        }
    }

    // How many more bytes have room.
    pub fn room(&self) -> usize
        ensures { result + length self.now ≡ SIZE }
    {
        SIZE - self.length
    }

    pub fn as_slice(&self) -> &[u8]
        ensures bytes { result.now ≡ self.now }
        ensures fits { length result.now ≤ SIZE }
    {
        &self.buffer[..self.length]
    }

    pub fn clear(&mut self)
        ensures { self.new ≡ [] }
    {
        self.length = 0;
    }

    // The end of a line, or a space.
    pub fn put_byte(&mut self, byte: u8)
        ensures { self.new ≡ put SIZE (byte ∷ []) self.old }
    {
        self.length = put_byte(&mut self.buffer, self.length, byte);
    }

    // A number in decimal digits.
    pub fn put_number(&mut self, number: u64)
        ensures { self.new ≡ put SIZE (number_text number) self.old }
    {
        self.length = put_number(&mut self.buffer, self.length, number);
    }

    // A word, a number and the end of the line.
    pub fn put_fact(&mut self, word: &[u8], number: u64)
        ensures { self.new ≡ put_fact SIZE word.now number self.old }
    {
        self.length = put_fact(&mut self.buffer, self.length, word, number);
    }

    // The line of a refusal: its number, and the position if it has one.
    pub fn put_refusal(&mut self, why: StreamRefusal)
        ensures { self.new ≡ put_refusal SIZE (no_of_stream why) self.old }
    {
        self.length = refusal_behind(&mut self.buffer, self.length, why);
    }
}

// Any bytes. As the others that are handed a buffer and `at`, this puts them behind its first `at` bytes and answers how many there are
// then; what stands behind them stays.
fn put_word(text: &mut [u8], at: usize, word: &[u8]) -> usize
    ensures { put_at word.now (at, text.old) ≡ (result, text.new) }
{
    if text.len() < at {
        return at;
    }
    if text.len() - at < word.len() {
        return at;
    }
    let end = at + word.len();
    text[at..end].copy_from_slice(word);
    end
}

// The end of a line, or a space.
pub fn put_byte(text: &mut [u8], at: usize, byte: u8) -> usize
    ensures { put_at (byte ∷ []) (at, text.old) ≡ (result, text.new) }
{
    if text.len() <= at {
        return at;
    }
    text[at] = byte;
    at + 1
}

// A number in decimal digits.
pub fn put_number(text: &mut [u8], at: usize, n: u64) -> usize
    ensures { put_at (number_text n) (at, text.old) ≡ (result, text.new) }
{
    let mut digits = [0u8; LONGEST_NUMBER];
    let count = io::decimal(n, &mut digits);
    put_word(text, at, &digits[..count])
}

// A word, a number and the end of the line.
pub fn put_fact(text: &mut [u8], at: usize, word: &[u8], n: u64) -> usize
    ensures { put_fact_at word.now n (at, text.old) ≡ (result, text.new) }
{
    let number = put_word(text, at, word);
    let end = put_number(text, number, n);
    put_byte(text, end, b'\n')
}

// The line of a refusal, from the start of the buffer, since a program that refuses tells nothing else.
pub fn put_refusal(text: &mut [u8], why: StreamRefusal) -> usize
    ensures { put_refusal_at (no_of_stream why) (0, text.old) ≡ (result, text.new) }
{
    refusal_behind(text, 0, why)
}

// The line of a refusal: its number, and the position if it has one.
// Not `write!`: its contract says which bytes it puts where it answers `Ok`, and never that it does, so that with room the line
// could not be shown to stand there, nor what stands there without.
fn refusal_behind(text: &mut [u8], at: usize, why: StreamRefusal) -> usize
    ensures { put_refusal_at (no_of_stream why) (at, text.old) ≡ (result, text.new) }
{
    let word = put_word(text, at, REFUSED);
    let number = put_number(text, word, u64::from(why.number()));
    match why.position() {
        Some(position) => put_fact(text, number, AT, position as u64),
        None => put_byte(text, number, b'\n'),
    }
}

// Reads until the buffer is full, the input ends or a read fails, and answers how many bytes stand at the buffer's start then: those
// that the reader has given, if it is known what it gives.
// A `while`, since each read takes as many bytes as it likes. std's `read_exact` does not say how many there were before the input's
// end, and what reads to the end allocates.
pub fn read_full<R: Read>(from: &mut R, buffer: &mut [u8]) -> usize
    ensures in_bounds { IsPrefixLen result buffer.new }
    ensures bytes { Consumes (R.remaining from.old) (R.remaining from.new) (take result buffer.new) }
{
    let mut done = 0;
    while done < buffer.len() {
        match from.read(&mut buffer[done..]) {
            Ok(0) | Err(_) => break,
            Ok(n) => done += n,
        }
    }
    done
}

// Writes all of the bytes. That it failed is told in a line of its own, unless the reader went away; where all went well nothing is.
pub fn write_or_tell<W: Write, E: Write>(
    out: &mut W,
    bytes: &[u8],
    errors: &mut E,
    failure: &[u8],
) -> std::io::Result<()>
    ensures written { OnOk result (Appends (W.contents out.old) (W.contents out.new) bytes.now) }
    ensures quiet { OnOk result (errors.new ≡ errors.old) }
{
    let written = out.write_all(bytes);
    if let Err(why) = &written
        && why.kind() != ErrorKind::BrokenPipe
    {
        let _ = errors.write_all(failure);
    }
    written
}
