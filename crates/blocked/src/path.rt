//! Which way a matrix is copied, by the number of its cells.
ghost use Rattle.std.specs.Prelude.{◌≡◌};
ghost use Rattle.blocked.specs.Paths.{path_of};

/// The most cells that are copied one by one: so small a matrix gains nothing from tiles.
const SMALL_LEN: usize = 255;

/// The most cells that are tiled as one region; a larger matrix is split first.
const MEDIUM_LEN: usize = 1 << 20;

/// How the cells of a matrix are copied.
#[derive(Clone, Copy, PartialEq, Eq, Debug)]
pub enum Path {
    /// One by one.
    Single,
    /// As one region of tiles.
    Tiled,
    /// Split into leaves, each a region of tiles.
    Split,
}

/// The way of a matrix of so many cells.
pub(crate) fn path_of(cells: usize) -> Path
    ensures { result ≡ path_of cells }
{
    if cells <= SMALL_LEN {
        Path::Single
    } else if cells <= MEDIUM_LEN {
        Path::Tiled
    } else {
        Path::Split
    }
}
