//! The matrix that a page of a signal is.
ghost use Rattle.std.specs.Prelude.{◌≡◌};

/// A page of `height` rows of `width` symbols.
#[derive(Clone, Copy, PartialEq, Eq, Debug)]
pub struct Shape {
    pub width: usize,
    pub height: usize,
}

impl Shape {
    /// The shape with these sides.
    pub fn new(width: usize, height: usize) -> Shape
        ensures { result ≡ record { width = width; height = height } }
    {
        Shape { width, height }
    }

    /// The same page read the other way: its sides exchanged.
    pub fn flipped(self) -> Shape
        ensures { result ≡ record { width = self.height; height = self.width } }
    {
        Shape::new(self.height, self.width)
    }
}
