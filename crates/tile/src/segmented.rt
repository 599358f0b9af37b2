//! The kernel that copies a tile in bands of rows.
ghost use Rattle.std.proofs.Common.{rules};

use crate::block::transpose_block;
use crate::counting::{Kernel, TileCopy};
use crate::kernel::TILE;
use matrix::{Block, Matrix};

/// How many bands a tile is cut into.
const NBR_SEGMENTS: usize = 4;

/// The rows of one band.
const SEGMENT: usize = TILE / NBR_SEGMENTS;

/// A tile band by band, each of a few rows: best where the rows of the matrix lie far apart.
pub struct Bands;

impl TileCopy for Bands {
    const SIDE: usize = TILE;

    ghost SIDE = { 16 };

    ghost bounded = { Prim.search rules };

    #[tactic(auto, using(crate::proofs::Pasted::no_row, crate::proofs::Pasted::below_more))]
    fn copy_tile<T: Copy>(matrix: Matrix<'_, T>, output: &mut [T], x: usize, y: usize) {
        for segment in 0..NBR_SEGMENTS {
            let band = Block {
                x,
                y: y + segment * SEGMENT,
                wide: TILE,
                high: SEGMENT,
            };
            transpose_block(matrix, output, band);
        }
    }
}

/// Copies a tile band by band.
pub type Segmented = Kernel<Bands>;
