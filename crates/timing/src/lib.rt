//! One more entry for C, for the timing driver alone: the library's own moves bytes, and the original is also timed with
//! elements of four bytes. C has no generics, so that is another entry.
#![tactic(auto)]

ghost use Rattle.fault.specs.Tests.{after_call};
ghost use Rattle.places.specs.Turn.{transposed};
ghost use Rattle.transpose.specs.Answers.{transposable};
ghost use Rattle.std.specs.Prelude.{◌≡◌, length, is_ok};

use blocked::transpose_tiled;

/// Copies a matrix of `height` rows of `width` numbers to its transpose, and says whether it was accepted: what C can read
/// of an answer.
#[unsafe(no_mangle)]
pub extern "C" fn timing_transpose_u32(
    input: &[u32],
    output: &mut [u32],
    width: usize,
    height: usize,
) -> bool
    ensures answer { result ≡ is_ok (transposable width height (length input.now) (length output.old)) }
    ensures places { output.new ≡ after_call (transposable width height (length input.now) (length output.old)) (transposed width height input.now) output.old }
{
    transpose_tiled(input, output, width, height).is_ok()
}
