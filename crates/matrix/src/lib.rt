//! Matrices that are read, and blocks of them.
#![tactic(auto)]

ghost use Rattle.std.specs.Prelude.{◌≡◌, ◌*◌, length, ⊤};
ghost use Rattle.matrix.specs.Blocks.{block};

pub use block::Block;
use std::alloc::AllocError;

mod block;

/// A matrix of `height` rows of `width` cells, row after row. A call that a user makes takes the cells and the sides one
/// by one, since they need not fit; what a test has accepted becomes a `Matrix`.
pub struct Matrix<'a, T> {
    pub cells: &'a [T],
    pub width: usize,
    pub height: usize,
    ghost holds: { length cells.now ≡ width * height },
}

// Written out, since the checker derives no `Clone` beside a ghost field.
impl<T> Clone for Matrix<'_, T> {
    ghost is_clone = { λ matrix copy. copy ≡ matrix };

    ghost is_infallible = { λ _. ⊤ };

    fn clone(&self) -> Result<Self, AllocError> {
        Ok(*self)
    }
}

impl<T> Copy for Matrix<'_, T> {}

impl<T> Matrix<'_, T> {
    /// All cells, as one block.
    pub fn whole(self) -> Block
        ensures { result ≡ block 0 self.entry.width 0 self.entry.height }
    {
        Block {
            x: 0,
            y: 0,
            wide: self.width,
            high: self.height,
        }
    }
}
