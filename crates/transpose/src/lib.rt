//! Transposition of whole matrices, from one buffer into another.
#![tactic(auto)]

ghost use Rattle.std.specs.Prelude.{◌≡◌, ◌*◌, true, length, is_ok};
ghost use Rattle.fault.specs.Tests.{after_call};
ghost use Rattle.places.specs.Turn.{Cells, transposed};
ghost use Rattle.transpose.specs.Answers.{transposable};

use fault::{Fault, Refusal};
use matrix::Matrix;
use tile::{Indexed, RunFill, Stepped, transpose_runs};

/// What `transpose` answers for buffers of these lengths; it moves nothing. Any four numbers may be asked, so they come one
/// by one.
pub fn test_transpose(
    width: usize,
    height: usize,
    input_len: usize,
    output_len: usize,
) -> Result<(), Fault>
    ensures { result ≡ transposable width height input_len output_len }
{
    let cells = width.checked_mul(height).ok_or(Refusal::TooManyCells)?;
    if input_len != cells {
        return Err(Refusal::InputLength.into());
    }
    if output_len != cells {
        return Err(Refusal::OutputLength.into());
    }
    Ok(())
}

/// Copies a matrix of `height` rows of `width` cells to its transpose, of `width` rows of `height` cells. The sides need not
/// fit the buffers, so they are no `Matrix` yet.
pub fn transpose<T: Copy>(
    input: &[T],
    output: &mut [T],
    width: usize,
    height: usize,
) -> Result<(), Fault>
    ensures answer { result ≡ transposable width height (length input.now) (length output.old) }
    ensures places { output.new ≡ after_call result (transposed width height input.now) output.old }
    ensures cells { is_ok result ≡ true → Cells width height input.now output.new }
{
    // no call tests and makes the matrix at once: its clause would speak of a borrowed value in a result
    test_transpose(width, height, input.len(), output.len())?;
    let matrix = Matrix {
        cells: input,
        width,
        height,
    };
    transpose_whole::<Indexed, T>(matrix, output);
    Ok(())
}

/// Copies cell by cell, each column of the matrix as one run of the output, stepping along it: for matrices that are too
/// small for tiles. Inner: the output holds the matrix.
pub fn transpose_small<T: Copy>(matrix: Matrix<'_, T>, output: &mut [T])
    requires output { length output.old ≡ matrix.width * matrix.height }
    ensures places { output.new ≡ transposed matrix.entry.width matrix.entry.height matrix.entry.cells.now }
    ensures cells { Cells matrix.entry.width matrix.entry.height matrix.entry.cells.now output.new }
{
    transpose_whole::<Stepped, T>(matrix, output);
}

/// Copies cell by cell, each column of the matrix as one run of the output, filled as `F` does. Inner: the output holds the
/// matrix. It stays an argument of its own, since a struct with a `&mut` would have to promise that it keeps the reference.
#[tactic(auto, using(crate::proofs::Whole::whole_places, crate::proofs::Whole::whole_cells, crate::proofs::Whole::none_places, crate::proofs::Whole::none_cells))]
fn transpose_whole<F: RunFill, T: Copy>(matrix: Matrix<'_, T>, output: &mut [T])
    requires output { length output.old ≡ matrix.width * matrix.height }
    ensures places { output.new ≡ transposed matrix.entry.width matrix.entry.height matrix.entry.cells.now }
    ensures cells { Cells matrix.entry.width matrix.entry.height matrix.entry.cells.now output.new }
{
    // columns of no cells are nothing to walk over, and there may be 2^64 - 1 of them
    if matrix.height == 0 {
        return;
    }
    transpose_runs::<F, T>(matrix, output, matrix.whole());
}
