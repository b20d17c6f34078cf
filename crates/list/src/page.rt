// The listing as it goes: what was handed on, and the text that waits to be. Lines are gathered in the text until the next might not fit.
ghost use Rattle.std.specs.Prelude.{[], ◌≡◌, ◌≤◌, length, OnOk};
ghost use Rattle.list.specs.Page.{Waits, lined, passed_on, with_room};

use crate::handed::{Handed, STDOUT_FILENO, Unwritten};
use crate::text::{LONGEST_LINE, put_row};
use lines::Text;

// The buffer in which the text waits. It is large so that a write of the system, which costs far more than a line, is made for hundreds
// of lines at once.
const LARGEST_TEXT: usize = 65536;

#[derive(Drop)]
pub(crate) struct Page<'a> {
    rt: &'a HostRuntime,
    pub(crate) handed: Handed<'a>,
    pub(crate) text: Text<LARGEST_TEXT>,
}

impl<'a> Page<'a> {
    pub(crate) fn new(rt: &'a HostRuntime, input: &'a [u8]) -> Self
        ensures input { result.handed.input.now ≡ input.now }
        ensures nothing { result.handed.bytes ≡ 0 }
        ensures empty { result.text ≡ [] }
    {
        Page {
            rt,
            handed: Handed::nothing(input),
            text: Text::new(),
        }
    }

    // What waits is handed on, and nothing waits.
    pub(crate) fn pass_on(&mut self) -> Result<(), Unwritten>
        requires { Waits self.old }
        ensures { OnOk result (self.new ≡ passed_on self.old) }
    {
        self.handed.hand_on(self.rt, STDOUT_FILENO, &mut self.text)
    }

    // The line of a row. What waits is handed on first, if a line might not fit behind it: with room for the longest any line fits, so it
    // is never measured.
    pub(crate) fn put_line(&mut self, row: &[u16]) -> Result<(), Unwritten>
        requires waits { Waits self.old }
        requires places { length row.now ≤ 4 }
        ensures { OnOk result (self.new ≡ lined (with_room self.old) row.now) }
    {
        if self.text.room() < LONGEST_LINE {
            self.pass_on()?;
        }
        put_row(&mut self.text, row);
        Ok(())
    }
}
