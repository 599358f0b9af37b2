//! Copies of square tiles and other blocks of a matrix to their places in its transpose.
#![tactic(auto)]

ghost use Rattle.tile.specs.Laws.{Counting, Pasting};

mod block;
mod counting;
mod kernel;
mod plain;
mod segmented;
mod tally;

pub use block::{Indexed, RunFill, Stepped, transpose_block, transpose_runs};
pub use counting::{Kernel, TileCopy};
pub use kernel::{TileKernel, test_tile};
pub use plain::{Plain, Whole};
pub use segmented::{Bands, Segmented};

/// The laws of blocks and of counts.
pub fn blocks_stand<T>()
    ensures pasting { Pasting T }
    ensures counting { Counting }
{}
