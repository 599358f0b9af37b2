//! The kernel that copies a tile as one block.
ghost use Rattle.std.proofs.Common.{rules};

use crate::counting::{Kernel, TileCopy};
use crate::kernel::TILE;

/// A tile as one block: best while the matrix is in the cache.
pub struct Whole;

impl TileCopy for Whole {
    const SIDE: usize = TILE;

    ghost SIDE = { 16 };

    ghost bounded = { Prim.search rules };
}

/// Copies a tile as one block.
pub type Plain = Kernel<Whole>;
