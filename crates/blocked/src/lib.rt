//! Transposition of whole matrices, from one buffer into another.
#![tactic(auto)]

ghost use Rattle.std.specs.Prelude.{◌≡◌, ◌*◌, true, length, is_ok};
ghost use Rattle.fault.specs.Tests.{after_call, answering};
ghost use Rattle.places.specs.Turn.{Cells, transposed};
ghost use Rattle.blocked.specs.Answers.{countable};
ghost use Rattle.transpose.specs.Answers.{transposable};
ghost use Rattle.blocked.specs.Laws.{Paths};
ghost use Rattle.blocked.specs.Paths.{leaf_count, path_of, tiled_count, tiles_for};
ghost use Rattle.blocked.specs.Worked.{AllCounted, worked_counts};

use fault::{Fault, Refusal};
use large::transpose_large;
use matrix::Matrix;
use path::{Path, path_of};
use region::transpose_medium;
use split::{split_tiles, whole_tiles};
use tile::{Plain, Segmented, TileKernel};
use transpose::{test_transpose, transpose_small};

mod large;
mod path;
mod region;

/// The most cells for which tiles are counted beforehand.
const COUNTED_LEN: usize = 16_777_216;

/// Copies a matrix of `height` rows of `width` cells to its transpose, of `width` rows of `height` cells. A matrix of
/// middle size is tiled by the kernel `tiled`; a large one is split, and its leaves are tiled by the kernel `leaf`. The
/// sides need not fit the buffers, so they are no `Matrix` yet.
pub fn transpose<T: Copy, K: TileKernel, L: TileKernel>(
    input: &[T],
    output: &mut [T],
    width: usize,
    height: usize,
    tiled: &mut K,
    leaf: &mut L,
) -> Result<(), Fault>
    ensures answer { result ≡ transposable width height (length input.now) (length output.old) }
    ensures places { output.new ≡ after_call result (transposed width height input.now) output.old }
    ensures cells { is_ok result ≡ true → Cells width height input.now output.new }
    ensures tiled { K.TileKernel.count tiled.new ≡ after_call result (tiled_count (path_of (width * height)) (K.TileKernel.count tiled.old) (tiles_for K.SIDE L.SIDE width height)) (K.TileKernel.count tiled.old) }
    ensures leaf { L.TileKernel.count leaf.new ≡ after_call result (leaf_count (path_of (width * height)) (L.TileKernel.count leaf.old) (tiles_for K.SIDE L.SIDE width height)) (L.TileKernel.count leaf.old) }
{
    // as in the plain `transpose`
    test_transpose(width, height, input.len(), output.len())?;
    let matrix = Matrix {
        cells: input,
        width,
        height,
    };
    match path_of(width * height) {
        Path::Single => transpose_small(matrix, output),
        Path::Tiled => transpose_medium(matrix, output, tiled),
        Path::Split => transpose_large(matrix, output, leaf),
    }
    Ok(())
}

/// The same move with the library's own two kernels, for callers that do not ask what was counted.
pub fn transpose_tiled<T: Copy>(
    input: &[T],
    output: &mut [T],
    width: usize,
    height: usize,
) -> Result<(), Fault>
    ensures answer { result ≡ transposable width height (length input.now) (length output.old) }
    ensures places { output.new ≡ after_call result (transposed width height input.now) output.old }
    ensures cells { is_ok result ≡ true → Cells width height input.now output.new }
{
    let mut tiled = Plain::new(0);
    let mut leaf = Segmented::new(0);
    transpose(input, output, width, height, &mut tiled, &mut leaf)
}

/// How many tiles `transpose` would copy with these two kernels; it moves nothing.
pub fn tiles<K: TileKernel, L: TileKernel>(
    width: usize,
    height: usize,
    _tiled: &K,
    _leaf: &L,
) -> Result<u64, Fault>
    ensures { result ≡ answering (countable width height) (tiles_for K.SIDE L.SIDE width height) }
{
    let cells = width.checked_mul(height).ok_or(Refusal::TooManyCells)?;
    if cells > COUNTED_LEN {
        return Err(Refusal::TooLong.into());
    }
    let count = match path_of(cells) {
        Path::Single => 0,
        Path::Tiled => whole_tiles(height, width, K::SIDE),
        Path::Split => split_tiles(height, width, L::SIDE),
    };
    // no `From` goes from `usize` to `u64`, and a `TryFrom` would add a failure that cannot come
    Ok(count as u64)
}

/// The law of the three ways to copy.
pub fn paths_stand()
    ensures { Paths }
{}

/// The counts that were worked out by hand.
pub fn counts_stand()
    ensures { AllCounted worked_counts }
{}
