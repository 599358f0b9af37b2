//! Which regions are halved, and how. All of it is inner: the walk and the counting call it.
ghost use Rattle.split.specs.Regions.{Halves, Ordered};
ghost use Rattle.split.specs.Tiles.{leaf};
ghost use Rattle.std.specs.Prelude.{◌≡◌};

use crate::region::Region;

/// The side up to which a region is left whole: such a part stays in the cache.
const RECURSIVE_LIMIT: usize = 128;

/// Whether a part of these sides is left whole: it is small, or too thin to halve.
pub(crate) fn is_leaf(nbr_rows: usize, nbr_cols: usize) -> bool
    ensures { result ≡ leaf nbr_rows nbr_cols }
{
    nbr_rows <= RECURSIVE_LIMIT && nbr_cols <= RECURSIVE_LIMIT || nbr_rows <= 2 || nbr_cols <= 2
}

/// The two halves of a region, cut across its longer side. Inner: no side ends before it starts.
pub(crate) fn halves(r: Region) -> (Region, Region)
    requires { Ordered r }
    ensures { Halves r result.0 result.1 }
{
    if r.nbr_rows() >= r.nbr_cols() {
        let at = r.row_start + r.nbr_rows() / 2;
        (Region { row_end: at, ..r }, Region { row_start: at, ..r })
    } else {
        let at = r.col_start + r.nbr_cols() / 2;
        (Region { col_end: at, ..r }, Region { col_start: at, ..r })
    }
}
