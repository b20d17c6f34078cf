// What is handed to the system. `hand_on` is the one function of the program that writes.
ghost use Rattle.std.specs.Prelude.{[], ◌≡◌, ◌+◌, length, OnOk};
ghost use Rattle.list.specs.Handing.{Due, handed_on};

use lines::{Text, write_or_tell};

// The number of standard output. Any other descriptor would be standard error here, and none is ever asked for. It is a parameter, since
// std's writers do not say which stream they are: `Due` says which it has to be, and a program that hands on to another is refused.
pub(crate) const STDOUT_FILENO: i32 = 1;

const FAILURE: &[u8] = b"list: the text could not be written\n";

// How many bytes of what the program tells of an input were handed on. The fields are known in this file only: nothing else can count a
// byte as handed on, or change whose text is counted. `tree` has its own: what may be handed on is each program's own text, and that is
// asked for by a `requires`, which no public function of a library has. It is no `Copy`, so that a count from before a write is not used
// again.
#[derive(Drop)]
pub(crate) struct Handed<'a> {
    input: &'a [u8],
    bytes: u64,
}

// A write failed. The field is there so that only this file can say so.
#[derive(Drop)]
pub(crate) struct Unwritten(());

impl<'a> Handed<'a> {
    // Before the first write.
    pub(crate) fn nothing(input: &'a [u8]) -> Self
        ensures input { result.input.now ≡ input.now }
        ensures nothing { result.bytes ≡ 0 }
    {
        Handed { input, bytes: 0 }
    }

    pub(crate) fn input(&self) -> &'a [u8]
        ensures { result.now ≡ self.now.input.now }
    {
        self.input
    }

    // Hands the text, which is the next part of what the program tells of the input, to standard output, and clears it. The input is not
    // read: the contract needs it, to say whose text it is. Where the write fails nothing is said of the count and of the text, so that
    // nothing more can be handed on. The failure is told in a line on standard error, unless the reader went away.
    pub(crate) fn hand_on<const SIZE: usize>(
        &mut self,
        rt: &HostRuntime,
        descriptor: i32,
        text: &mut Text<SIZE>,
    ) -> Result<(), Unwritten>
        requires { Due descriptor self.old text.old }
        ensures counted { OnOk result (self.new ≡ handed_on self.old (length text.old)) }
        ensures cleared { OnOk result (text.new ≡ []) }
    {
        let bytes = text.as_slice();
        let written = match descriptor {
            STDOUT_FILENO => write_or_tell(&mut rt.stdout(), bytes, &mut rt.stderr(), FAILURE),
            _ => write_or_tell(&mut rt.stderr(), bytes, &mut rt.stderr(), FAILURE),
        };
        if written.is_err() {
            return Err(Unwritten(()));
        }
        self.bytes += bytes.len() as u64;
        text.clear();
        Ok(())
    }
}
