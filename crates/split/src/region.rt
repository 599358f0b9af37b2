//! A part of a matrix.
ghost use Rattle.std.specs.Prelude.{◌≡◌, ◌≤◌};
ghost use Rattle.split.specs.Regions.{Ordered, cols, rows};
ghost use Rattle.split.specs.Tiles.{leaf};

use crate::halve::is_leaf;

/// The rows from `row_start` up to `row_end`, and of these the columns from `col_start` up to `col_end`. It may be any four
/// numbers, for each of which the laws of leaves hold; so no ghost field says that no side ends before it starts.
#[derive(Clone, Copy, PartialEq, Eq, Default, Debug)]
pub struct Region {
    pub row_start: usize,
    pub row_end: usize,
    pub col_start: usize,
    pub col_end: usize,
}

impl Region {
    /// How many rows there are. Inner: they do not end before they start.
    pub(crate) fn nbr_rows(&self) -> usize
        requires { self.now.row_start ≤ self.now.row_end }
        ensures { result ≡ rows self.now }
    {
        self.row_end - self.row_start
    }

    /// How many columns there are. Inner: they do not end before they start.
    pub(crate) fn nbr_cols(&self) -> usize
        requires { self.now.col_start ≤ self.now.col_end }
        ensures { result ≡ cols self.now }
    {
        self.col_end - self.col_start
    }

    /// Whether it is left whole. Inner: no side ends before it starts.
    pub(crate) fn is_leaf(&self) -> bool
        requires { Ordered self.now }
        ensures { result ≡ leaf (rows self.now) (cols self.now) }
    {
        is_leaf(self.nbr_rows(), self.nbr_cols())
    }
}
