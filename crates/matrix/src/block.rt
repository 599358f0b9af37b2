//! A part of a matrix.

/// The `wide` columns from `x` on, of the `high` rows from `y` on. A block and its matrix stay two values: with one type for
/// both, each function would still need a clause that the output holds the matrix.
#[derive(Clone, Copy, PartialEq, Eq, Debug)]
pub struct Block {
    pub x: usize,
    pub y: usize,
    pub wide: usize,
    pub high: usize,
}
