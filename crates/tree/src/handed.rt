// What is handed to the system. `hand_on` is the one function of the program that writes.
ghost use Rattle.std.specs.Prelude.{◌≡◌, length, IfOk};
ghost use Rattle.tree.specs.Handing.{Due, HandsOn};

use lines::write_or_tell;

// The number of standard output. Any other descriptor would be standard error here, and none is ever asked for. It is a parameter, since
// std's writers do not say which stream they are: `Due` says which it has to be, and a program that hands on to another is refused.
pub(crate) const STDOUT_FILENO: i32 = 1;

const FAILURE: &[u8] = b"tree: the records could not be written\n";

// How many bytes of what the program tells of an input were handed on. The fields are known in this file only: nothing else can count a
// byte as handed on, or change whose text is counted. `list` has its own: what may be handed on is each program's own text, and that is
// asked for by a `requires`, which no public function of a library has. It is no `Copy`, since all is handed on in one write: what was
// begun here ends with it.
#[derive(Drop)]
pub(crate) struct Handed<'a> {
    input: &'a [u8],
    bytes: u64,
}

// A write failed. The field is there so that only this file can say so.
#[derive(Drop)]
pub(crate) struct Unwritten(());

impl<'a> Handed<'a> {
    // Before the write.
    pub(crate) fn nothing(input: &'a [u8]) -> Self
        ensures input { result.input.now ≡ input.now }
        ensures nothing { result.bytes ≡ 0 }
    {
        Handed { input, bytes: 0 }
    }

    // Hands all that the program tells of the input to standard output. The input is not read: the contract needs it, to say what is told.
    // The bytes are lent with `mut` and nothing is said of them afterwards, so that they are used up: to hand them on twice, also by a
    // second count, a caller would have to make them anew. A write that fails is told in a line on standard error, unless the reader went
    // away.
    pub(crate) fn hand_on(
        self,
        rt: &HostRuntime,
        descriptor: i32,
        bytes: &mut [u8],
    ) -> Result<Self, Unwritten>
        requires { Due descriptor self bytes.old }
        ensures counted { IfOk result (λ after. after.bytes ≡ length bytes.old) }
        ensures all { IfOk result (HandsOn self.entry.input.now) }
    {
        let written = match descriptor {
            STDOUT_FILENO => write_or_tell(&mut rt.stdout(), bytes, &mut rt.stderr(), FAILURE),
            _ => write_or_tell(&mut rt.stderr(), bytes, &mut rt.stderr(), FAILURE),
        };
        match written {
            Ok(()) => Ok(Handed {
                input: self.input,
                bytes: bytes.len() as u64,
            }),
            Err(_) => Err(Unwritten(())),
        }
    }
}
