//! Kernels that test a tile, copy it and count it. They differ only in their side and in how a tile is copied.
ghost use Rattle.std.specs.Prelude.{◌≡◌, ℕ, ◌≤◌, length};
ghost use Rattle.std.proofs.Common.{rules};
ghost use Rattle.matrix.specs.Blocks.{square};
ghost use Rattle.tile.specs.Blocks.{BlockInside, block_pasted};

use crate::block::transpose_block;
use crate::kernel::{TileKernel, test_tile};
use crate::tally::Tally;
use fault::Fault;
use matrix::{Block, Matrix};
use std::marker::PhantomData;

/// How the tiles of one side are copied.
pub trait TileCopy {
    /// The number of cells along a side of a tile, from 1 to 128.
    const SIDE: usize;

    ghost SIDE: { ℕ };

    /// Copies the tile whose first cell is in column `x` and row `y`: as one block, unless an implementation says
    /// otherwise. Inner: the tile lies in the matrix, which the output holds.
    fn copy_tile<T: Copy>(matrix: Matrix<'_, T>, output: &mut [T], x: usize, y: usize)
        requires { BlockInside matrix (length output.old) (square x y SIDE) }
        ensures { output.new ≡ block_pasted matrix.entry (square x y SIDE) output.old }
    {
        let (wide, high) = (Self::SIDE, Self::SIDE);
        transpose_block(matrix, output, Block { x, y, wide, high });
    }

    ghost bounded: { (1 ≤ SIDE) × (SIDE ≤ 128) };
}

/// A kernel that copies tiles as `C` does.
#[derive(Drop)]
pub struct Kernel<C> {
    tally: Tally,
    copy: PhantomData<C>,
}

impl<C> Kernel<C> {
    /// A kernel that has already copied `count` tiles.
    pub fn new(count: u64) -> Kernel<C>
        ensures { result.tally.count ≡ count }
    {
        Kernel {
            tally: Tally { count },
            copy: PhantomData,
        }
    }
}

impl<C: TileCopy> TileKernel for Kernel<C> {
    const SIDE: usize = C::SIDE;

    ghost SIDE = { C.SIDE };

    ghost count = { λ k. k.tally.count };

    ghost bounded = { C.bounded };

    ghost below = { Prim.search rules };

    fn moved(&self) -> u64 {
        self.tally.count
    }

    fn transpose_tile<T: Copy>(
        &mut self,
        input: &[T],
        output: &mut [T],
        total_cols: usize,
        total_rows: usize,
        start_x: usize,
        start_y: usize,
    ) -> Result<(), Fault> {
        let (in_len, out_len) = (input.len(), output.len());
        test_tile(
            C::SIDE,
            in_len,
            out_len,
            total_cols,
            total_rows,
            start_x,
            start_y,
        )?;
        let matrix = Matrix {
            cells: input,
            width: total_cols,
            height: total_rows,
        };
        C::copy_tile(matrix, output, start_x, start_y);
        self.tally.raise();
        Ok(())
    }
}
