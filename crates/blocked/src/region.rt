//! A region of a matrix: its whole tiles by a kernel, its edges as blocks. All of it is inner: the region lies in the
//! matrix, which the output holds. Matrix, output and kernel stay three arguments. A struct of them would have methods
//! that each promise to keep both references and the sides: a clause more on every method, for one less on a few.
ghost use Rattle.std.specs.Prelude.{◌≡◌, ◌+◌, ◌-◌, ◌*◌, ◌/◌, ◌<◌, ◌≤◌, length};
ghost use Rattle.places.specs.Turn.{Cells, transposed};
ghost use Rattle.split.specs.Tiles.{whole_tiles};
ghost use Rattle.matrix.specs.Blocks.{block, square};
ghost use Rattle.tile.specs.Blocks.{BlockInside, block_pasted};
ghost use Rattle.tile.specs.Kernels.{raised};
ghost use Rattle.blocked.specs.Parts.{band_pasted, in_tiles};

use matrix::{Block, Matrix};
use tile::{TileKernel, transpose_block};

/// How many of `n` rows or columns are in whole tiles of `K`.
fn in_tiles<K: TileKernel>(n: usize) -> usize
    ensures cells { result ≡ in_tiles K.SIDE n }
    ensures within { result ≤ n }
{
    n / K::SIDE * K::SIDE
}

/// Copies one tile. The kernel declines only a tile that does not lie in the matrix.
fn copy_tile<T: Copy, K: TileKernel>(
    matrix: Matrix<'_, T>,
    output: &mut [T],
    x: usize,
    y: usize,
    kernel: &mut K,
)
    requires { BlockInside matrix (length output.old) (square x y K.SIDE) }
    ensures places { output.new ≡ block_pasted matrix.entry (square x y K.SIDE) output.old }
    ensures count { K.TileKernel.count kernel.new ≡ raised (K.TileKernel.count kernel.old) 1 }
{
    let Matrix {
        cells,
        width,
        height,
    } = matrix;
    kernel
        .transpose_tile(cells, output, width, height, x, y)
        .unwrap();
}

/// Copies the whole tiles of a band, which is as high as a tile.
#[tactic(auto, using(crate::proofs::Tiled::no_tiles, crate::proofs::Tiled::none_raised, crate::proofs::Tiled::tile_more))]
fn transpose_tiles<T: Copy, K: TileKernel>(
    matrix: Matrix<'_, T>,
    output: &mut [T],
    band: Block,
    kernel: &mut K,
)
    requires high { band.high ≡ K.SIDE }
    requires inside { BlockInside matrix (length output.old) band }
    ensures places { output.new ≡ block_pasted matrix.entry (block band.x (in_tiles K.SIDE band.wide) band.y K.SIDE) output.old }
    ensures count { K.TileKernel.count kernel.new ≡ raised (K.TileKernel.count kernel.old) (band.wide / K.SIDE) }
{
    for x_tile in 0..band.wide / K::SIDE {
        copy_tile(matrix, output, band.x + x_tile * K::SIDE, band.y, kernel);
    }
}

/// Copies a band: its tiles, and the right edge as a block.
fn transpose_band<T: Copy, K: TileKernel>(
    matrix: Matrix<'_, T>,
    output: &mut [T],
    band: Block,
    kernel: &mut K,
)
    requires high { band.high ≡ K.SIDE }
    requires inside { BlockInside matrix (length output.old) band }
    ensures places { output.new ≡ band_pasted K.SIDE matrix.entry.width matrix.entry.height band.x band.wide band.y matrix.entry.cells.now output.old }
    ensures count { K.TileKernel.count kernel.new ≡ raised (K.TileKernel.count kernel.old) (band.wide / K.SIDE) }
{
    transpose_tiles(matrix, output, band, kernel);
    let x_end = in_tiles::<K>(band.wide);
    let edge = Block {
        x: band.x + x_end,
        wide: band.wide - x_end,
        ..band
    };
    transpose_block(matrix, output, edge);
}

/// Copies the whole bands of a region, one below the other: all cells of the rows in whole tiles, and no other cell.
#[tactic(auto, using(crate::proofs::Tiled::no_bands, crate::proofs::Tiled::none_raised, crate::proofs::Tiled::band_more))]
fn transpose_bands<T: Copy, K: TileKernel>(
    matrix: Matrix<'_, T>,
    output: &mut [T],
    region: Block,
    kernel: &mut K,
)
    requires { BlockInside matrix (length output.old) region }
    ensures places { output.new ≡ block_pasted matrix.entry (block region.x region.wide region.y (in_tiles K.SIDE region.high)) output.old }
    ensures count { K.TileKernel.count kernel.new ≡ raised (K.TileKernel.count kernel.old) (region.high / K.SIDE * (region.wide / K.SIDE)) }
{
    for y_tile in 0..region.high / K::SIDE {
        let band = Block {
            y: region.y + y_tile * K::SIDE,
            high: K::SIDE,
            ..region
        };
        transpose_band(matrix, output, band, kernel);
    }
}

/// Copies a region: the rows below the whole bands as one block, which is the bottom edge with the corner, and then the
/// bands. In this order the numbers of the edge are done with before the loop over tiles begins.
#[tactic(auto, using(crate::proofs::Tiled::parts_whole))]
pub(crate) fn transpose_region<T: Copy, K: TileKernel>(
    matrix: Matrix<'_, T>,
    output: &mut [T],
    region: Block,
    kernel: &mut K,
)
    requires { BlockInside matrix (length output.old) region }
    ensures places { output.new ≡ block_pasted matrix.entry region output.old }
    ensures count { K.TileKernel.count kernel.new ≡ raised (K.TileKernel.count kernel.old) (whole_tiles K.SIDE region.high region.wide) }
{
    let y_end = in_tiles::<K>(region.high);
    let edge = Block {
        y: region.y + y_end,
        high: region.high - y_end,
        ..region
    };
    transpose_block(matrix, output, edge);
    transpose_bands(matrix, output, region, kernel);
}

/// Copies a matrix as one region.
#[tactic(auto, using(crate::proofs::Tiled::whole_rules))]
pub(crate) fn transpose_medium<T: Copy, K: TileKernel>(
    matrix: Matrix<'_, T>,
    output: &mut [T],
    kernel: &mut K,
)
    requires output { length output.old ≡ matrix.width * matrix.height }
    ensures places { output.new ≡ transposed matrix.entry.width matrix.entry.height matrix.entry.cells.now }
    ensures cells { Cells matrix.entry.width matrix.entry.height matrix.entry.cells.now output.new }
    ensures count { K.TileKernel.count kernel.new ≡ raised (K.TileKernel.count kernel.old) (whole_tiles K.SIDE matrix.entry.height matrix.entry.width) }
{
    transpose_region(matrix, output, matrix.whole(), kernel);
}
