//! How many whole tiles a matrix has, tiled as it is or split. Both are inner: the sides make a product that fits.
//! Rows, columns and side stay three numbers: the recursion makes one of the first two smaller at a time, and a
//! `NonZeroUsize` for the side would have to be made of a kernel's constant at each call.
ghost use Rattle.std.specs.Prelude.{◌≡◌, ◌*◌, ◌^◌, ◌<◌};
ghost use Rattle.split.specs.Tiles.{split_tiles, whole_tiles};

use crate::halve::is_leaf;

/// The whole tiles of a part that is tiled as it is.
#[tactic(auto, using(crate::proofs::Tiling::product))]
pub fn whole_tiles(nbr_rows: usize, nbr_cols: usize, side: usize) -> usize
    requires side { 0 < side }
    requires cells { nbr_rows * nbr_cols < 2 ^ 64 }
    ensures { result ≡ whole_tiles side nbr_rows nbr_cols }
{
    (nbr_rows / side) * (nbr_cols / side)
}

/// The whole tiles of all leaves of a part that is split.
#[tactic(auto, using(crate::proofs::Tiling::counting))]
pub fn split_tiles(nbr_rows: usize, nbr_cols: usize, side: usize) -> usize
    requires side { 0 < side }
    requires cells { nbr_rows * nbr_cols < 2 ^ 64 }
    ensures { result ≡ split_tiles side nbr_rows nbr_cols }
{
    if is_leaf(nbr_rows, nbr_cols) {
        whole_tiles(nbr_rows, nbr_cols, side)
    } else if nbr_rows >= nbr_cols {
        let half = nbr_rows / 2;
        split_tiles(half, nbr_cols, side) + split_tiles(nbr_rows - half, nbr_cols, side)
    } else {
        let half = nbr_cols / 2;
        split_tiles(nbr_rows, half, side) + split_tiles(nbr_rows, nbr_cols - half, side)
    }
}
