// A row's line as text, made of what `lines` puts. It asks for the room that it may need (specs/Bounds.antt), so it never has to say that
// it did not fit.
ghost use Rattle.std.specs.Prelude.{◌≡◌, ◌+◌, ◌≤◌, ◌++◌, length};
ghost use Rattle.list.specs.Bounds.{longest_line};
ghost use Rattle.list.specs.Text.{line_text};

use lines::{LONGEST_NUMBER, Text};
use paper::limits::MOST_PLACES;

// A line has at most four entries, each with a space before it and at most 20 digits, and its end. An entry has at most five digits in
// fact, but `put_number` puts any 64-bit number, and a bound that needs no fact about the row costs nothing here.
pub(crate) const LONGEST_LINE: usize = MOST_PLACES * (1 + LONGEST_NUMBER) + 1;

// A line of the listing: the row's entries, a space between two, and the end of the line.
pub(crate) fn put_row<const SIZE: usize>(text: &mut Text<SIZE>, row: &[u16])
    requires places { length row.now ≤ 4 }
    requires room { length text.old + longest_line ≤ SIZE }
    ensures { text.new ≡ text.old ++ line_text row.now }
{
    for (place, entry) in row.iter().enumerate() {
        if place > 0 {
            text.put_byte(b' ');
        }
        text.put_number(u64::from(*entry));
    }
    text.put_byte(b'\n');
}
