//! Large matrices, leaf by leaf. All of it is inner: the output holds the matrix, and stays an argument as in `region.rt`.
ghost use Rattle.std.specs.Prelude.{◌≡◌, ◌+◌, ◌*◌, ◌^◌, ◌<◌, ◌≤◌, length};
ghost use Rattle.places.specs.Turn.{Cells, transposed};
ghost use Rattle.split.specs.Left.{left};
ghost use Rattle.split.specs.Regions.{All, Lies, tiles_of};
ghost use Rattle.split.specs.Tiles.{split_tiles};
ghost use Rattle.tile.specs.Blocks.{pasted};
ghost use Rattle.tile.specs.Kernels.{raised};
ghost use Rattle.blocked.specs.Parts.{leaves_pasted};

use crate::region::transpose_region;
use matrix::{Block, Matrix};
use split::{Region, Walk};
use tile::TileKernel;

/// How many regions can be put aside while a matrix of any size is split.
const WAITING: usize = 64;

/// Copies the leaves that a walk has yet to yield, each as a region. Inner: they lie in the matrix.
fn transpose_leaves<T: Copy, K: TileKernel, const N: usize>(
    matrix: Matrix<'_, T>,
    output: &mut [T],
    walk: Walk<N>,
    kernel: &mut K,
)
    requires output { length output.old ≡ matrix.width * matrix.height }
    requires lie { All (Lies matrix.width matrix.height) (left walk) }
    ensures places { output.new ≡ leaves_pasted matrix.entry.width matrix.entry.height matrix.entry.cells.now (left walk.entry) output.old }
    ensures count { K.TileKernel.count kernel.new ≡ raised (K.TileKernel.count kernel.old) (tiles_of K.SIDE (left walk.entry)) }
{
    for Region {
        row_start,
        row_end,
        col_start,
        col_end,
    } in walk {
        // no `From`: only an ordered region is a block
        let leaf = Block {
            x: col_start,
            y: row_start,
            wide: col_end - col_start,
            high: row_end - row_start,
        };
        transpose_region(matrix, output, leaf, kernel);
    }
}

/// Splits a matrix into leaves and copies them, with room to put N regions aside. The original calls itself on both
/// halves; here a walk keeps the second ones. Inner: N places are enough for the cells.
fn transpose_recursive<T: Copy, K: TileKernel, const N: usize>(
    matrix: Matrix<'_, T>,
    output: &mut [T],
    kernel: &mut K,
)
    requires output { length output.old ≡ matrix.width * matrix.height }
    requires place { 0 < N }
    requires few { N ≤ 4096 }
    requires room { matrix.width * matrix.height ≤ 2 ^ (N + 8) }
    ensures places { output.new ≡ pasted matrix.entry.width matrix.entry.height 0 matrix.entry.width 0 matrix.entry.height matrix.entry.cells.now output.old }
    ensures count { K.TileKernel.count kernel.new ≡ raised (K.TileKernel.count kernel.old) (split_tiles K.SIDE matrix.entry.height matrix.entry.width) }
{
    let walk = Walk::<N>::new(Region {
        row_start: 0,
        row_end: matrix.height,
        col_start: 0,
        col_end: matrix.width,
    });
    transpose_leaves(matrix, output, walk, kernel);
}

/// Copies a matrix of any size leaf by leaf.
#[tactic(auto, using(crate::proofs::Tiled::whole_rules))]
pub(crate) fn transpose_large<T: Copy, K: TileKernel>(
    matrix: Matrix<'_, T>,
    output: &mut [T],
    kernel: &mut K,
)
    requires output { length output.old ≡ matrix.width * matrix.height }
    ensures places { output.new ≡ transposed matrix.entry.width matrix.entry.height matrix.entry.cells.now }
    ensures cells { Cells matrix.entry.width matrix.entry.height matrix.entry.cells.now output.new }
    ensures count { K.TileKernel.count kernel.new ≡ raised (K.TileKernel.count kernel.old) (split_tiles K.SIDE matrix.entry.height matrix.entry.width) }
{
    transpose_recursive::<T, K, WAITING>(matrix, output, kernel);
}
