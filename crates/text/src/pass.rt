// The pass over a text, from its first byte to its last: one byte, the end of a comment, and the whole text.
ghost use Rattle.std.specs.Prelude.{◌≡◌, cond, ◌+◌, ◌*◌};
ghost use Rattle.std.proofs.Math.Option.{none, some};
ghost use Rattle.paper.specs.BracketedText.{Comment};
ghost use Rattle.writings.specs.ReadText.{symbol_of};
ghost use Rattle.text.specs.Pass.{after_byte, after_symbol, image_of_text, one_more};
ghost use Rattle.text.specs.Reading.{answered, state_behind, state_in};
ghost use Rattle.text.specs.Told.{told};

use crate::LONGEST_IMAGE;
use crate::bytes::BASE;
use crate::label::Label;
use crate::number::Number;
use crate::tokens::{Fault, Kept};
use paper::Refusal;
use paper::limits::{HIGHEST_LABEL, MOST_WRITTEN_NODES};

// Where the reading stands: between tokens, in a number that is this so far, or where a comment has begun.
#[derive(Clone, Debug, Drop, PartialEq, Eq)]
enum Mode {
    Outside,
    Number(Number),
    Comment,
}

// A number with one more digit. No zero leads a number, and none is above the highest label.
fn with_digit(number: Number, digit: u8) -> Result<Number, Fault>
    ensures { answered result ≡ cond (one_more number digit) (some (10 * number + digit)) none }
{
    let number = number.value();
    if number == 0 {
        return Err(Fault);
    }
    let longer = u16::from(BASE) * u16::from(number) + u16::from(digit);
    if longer > u16::from(HIGHEST_LABEL) {
        return Err(Fault);
    }
    Ok(Number::new(longer as u8))
}

// A byte between tokens that is no digit. A slash is simply a wrong character.
fn read_symbol(byte: u8, kept: &mut Kept) -> Result<Mode, Fault>
    ensures { state_behind result kept.new ≡ after_symbol (symbol_of byte) kept.old }
{
    match byte {
        b' ' | b'\n' => {}
        b'!' => return Ok(Mode::Comment),
        b'(' => kept.open_brackets()?,
        b')' => kept.close_brackets()?,
        _ => return Err(Fault),
    }
    Ok(Mode::Outside)
}

// A digit goes into a number, and any other byte ends one. `read_text` goes over a comment by itself and asks for none of its bytes: the
// first two arms are here since the contract speaks of every mode.
fn read_byte(mode: Mode, byte: u8, kept: &mut Kept) -> Result<Mode, Fault>
    ensures { state_behind result kept.new ≡ after_byte (state_in mode kept.old) byte }
{
    match (mode, byte) {
        (Mode::Comment, b'\n') => return Ok(Mode::Outside),
        (Mode::Comment, _) => return Ok(Mode::Comment),
        (Mode::Outside, b'0'..=b'9') => return Ok(Mode::Number(Number::new(byte - b'0'))),
        (Mode::Number(number), b'0'..=b'9') => {
            return Ok(Mode::Number(with_digit(number, byte - b'0')?));
        }
        (Mode::Number(number), _) => kept.put_number(number)?,
        (Mode::Outside, _) => {}
    }
    // At one place, so that it is compiled into the loop over the bytes, and what is kept stays in registers.
    read_symbol(byte, kept)
}

// Where a comment ends that has begun before this text: at the next line end, which is not part of it, or at the text's end. In a loop
// of its own, since most bytes of a text may be comment.
fn comment_end(text: &[u8]) -> &[u8]
    ensures { Comment text.now result.now }
{
    let mut end = text;
    // Ends with the text at the latest: a turn goes over one byte.
    while let [byte, behind @ ..] = end {
        if *byte == b'\n' {
            return end;
        }
        end = behind;
    }
    end
}

// The image of the tree that a text writes. What stands behind a fault is not read, since it mends nothing.
pub(crate) fn read_text(text: &[u8], out: &mut [u8]) -> Result<usize, Refusal>
    ensures { (result, out.new) ≡ told (image_of_text text.now) out.old }
{
    let mut labels = [Label::BLANK; MOST_WRITTEN_NODES];
    let mut bytes = [0; LONGEST_IMAGE];
    let mut kept = Kept::new(&mut labels, &mut bytes);
    let mut mode = Mode::Outside;
    let mut rest = text;
    // Ends behind the text: a turn goes over one byte, and over the comment that it begins.
    while let [byte, behind @ ..] = rest {
        mode = read_byte(mode, *byte, &mut kept)?;
        rest = behind;
        if let Mode::Comment = mode {
            rest = comment_end(behind);
            mode = Mode::Outside;
        }
    }
    if let Mode::Number(number) = mode {
        kept.put_number(number)?;
    }
    kept.put_image(out)
}
