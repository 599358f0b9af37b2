//! Two more kernels, with the smallest and the largest side there may be.
ghost use Rattle.std.proofs.Common.{rules};

use tile::{Kernel, TileCopy};

/// A tile of one cell.
pub struct Cell;

impl TileCopy for Cell {
    const SIDE: usize = 1;

    ghost SIDE = { 1 };

    ghost bounded = { Prim.search rules };
}

/// A tile of 128 by 128 cells.
pub struct Square;

impl TileCopy for Square {
    const SIDE: usize = 128;

    ghost SIDE = { 128 };

    ghost bounded = { Prim.search rules };
}

/// Copies tiles of one cell.
pub type One = Kernel<Cell>;

/// Copies tiles of 128 by 128 cells.
pub type Wide = Kernel<Square>;
