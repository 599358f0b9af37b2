//! What a tile kernel is.
ghost use Rattle.std.specs.Prelude.{◌≡◌, ℕ, ◌^◌, ◌<◌, ◌≤◌, length, OnOk};
ghost use Rattle.fault.specs.Tests.{after_call};
ghost use Rattle.tile.specs.Blocks.{Inside, pasted};
ghost use Rattle.tile.specs.Kernels.{raised, tileable};

use fault::{Fault, Refusal};

/// The side of the library's own tiles.
pub(crate) const TILE: usize = 16;

/// Copies square tiles of a matrix to their places in its transpose, and counts them.
pub trait TileKernel {
    /// The number of cells along a side of a tile, from 1 to 128.
    const SIDE: usize;

    // the same number, for clauses
    ghost SIDE: { ℕ };

    ghost count: { Self → ℕ };

    /// How many tiles were copied; the count stays at 2^64 - 1 once it is there.
    fn moved(&self) -> u64
        ensures { result ≡ count self.now };

    /// Copies the tile whose first cell is in column `start_x` and row `start_y`. The six arguments are the rule's, and
    /// need not fit one another, so they make no struct.
    fn transpose_tile<T: Copy>(
        &mut self,
        input: &[T],
        output: &mut [T],
        total_cols: usize,
        total_rows: usize,
        start_x: usize,
        start_y: usize,
    ) -> Result<(), Fault>
        ensures answer { result ≡ tileable SIDE (length input.now) (length output.old) total_cols total_rows start_x start_y }
        ensures places { output.new ≡ after_call result (pasted total_cols total_rows start_x SIDE start_y SIDE input.now output.old) output.old }
        ensures count { count self.new ≡ after_call result (raised (count self.old) 1) (count self.old) };

    ghost bounded: { (1 ≤ SIDE) × (SIDE ≤ 128) };

    ghost below: { (k : Self) → count k < 2 ^ 64 };
}

/// What a kernel of this side answers for a tile; it moves nothing. Every kernel begins with it. It takes numbers one by
/// one, as a kernel does: only what it accepts is a matrix.
pub fn test_tile(
    side: usize,
    input_len: usize,
    output_len: usize,
    total_cols: usize,
    total_rows: usize,
    start_x: usize,
    start_y: usize,
) -> Result<(), Fault>
    ensures answer { result ≡ tileable side input_len output_len total_cols total_rows start_x start_y }
    ensures inside { OnOk result (Inside input_len output_len total_cols total_rows start_x side start_y side) }
{
    // what is subtracted is the same for all tiles of a matrix, so that a loop over tiles does it once
    if let Some(cells) = total_cols.checked_mul(total_rows)
        && input_len == cells
        && output_len == cells
        && side <= total_cols
        && start_x <= total_cols - side
        && side <= total_rows
        && start_y <= total_rows - side
    {
        return Ok(());
    }
    Err(Refusal::Outside.into())
}
