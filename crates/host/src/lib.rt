//! What the C side of a receiver calls. A buffer is a pointer and a number of bytes. C has no generics, so there is an entry
//! for each element type, and its arguments are plain.
#![tactic(auto)]

ghost use Rattle.fault.specs.Tests.{after_call};
ghost use Rattle.host.specs.Status.{status_of};
ghost use Rattle.places.specs.Turn.{transposed};
ghost use Rattle.transpose.specs.Answers.{transposable};
ghost use Rattle.std.specs.Prelude.{◌≡◌, length};

use blocked::transpose_tiled;
use fault::Fault;

/// 0 for a call that was accepted, else the number of its refusal: what C can read of an answer.
fn status(answer: Result<(), Fault>) -> u32
    ensures { result ≡ status_of answer }
{
    match answer {
        Ok(()) => 0,
        Err(fault) => u32::from(fault.number()),
    }
}

/// Copies a matrix of `height` rows of `width` bytes to its transpose, of `width` rows of `height` bytes. Answers 0, or
/// the number of the refusal; then the output is as it was.
#[unsafe(no_mangle)]
pub extern "C" fn gorqymel_transpose(
    input: &[u8],
    output: &mut [u8],
    width: usize,
    height: usize,
) -> u32
    ensures answer { result ≡ status_of (transposable width height (length input.now) (length output.old)) }
    ensures places { output.new ≡ after_call (transposable width height (length input.now) (length output.old)) (transposed width height input.now) output.old }
{
    status(transpose_tiled(input, output, width, height))
}
