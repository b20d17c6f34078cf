// What both ways need of bytes: the base of the numbers, and the copy of a result to the output.
ghost use Rattle.std.specs.Prelude.{◌≡◌};
ghost use Rattle.std.proofs.Math.Option.{some};
ghost use Rattle.text.specs.Told.{told};

use paper::Refusal;

// Numbers are written in decimal.
pub(crate) const BASE: u8 = 10;

// All of them over the first bytes of the output, behind which it stays, and how many they are; or refusal 10, where it stays as it was.
pub(crate) fn copy_to_start(bytes: &[u8], out: &mut [u8]) -> Result<usize, Refusal>
    ensures { (result, out.new) ≡ told (some bytes.now) out.old }
{
    if out.len() < bytes.len() {
        return Err(Refusal::ShortOutput);
    }
    out[..bytes.len()].copy_from_slice(bytes);
    Ok(bytes.len())
}
