//! Pages made by a stated rule, so that a reader can check each symbol.
//! `as` takes only a number that fits the type, so each place is reduced to one that does; a `TryFrom` would add a failure
//! that cannot come.
ghost use Rattle.std.specs.Prelude.{◌≡◌, ℕ, map, length, Decides};
ghost use Rattle.demo.specs.Rules.{number_at, sample_at, symbol_at};
ghost use Rattle.places.specs.Places.{same};

use sample::Sample;

/// What stands at each place of a page.
pub trait Rule {
    type Item: Copy;

    ghost at: { ℕ → Self.Item };

    /// The element at the place `k`.
    fn item(k: usize) -> Self::Item
        ensures { result ≡ at k };

    /// Whether two elements are the same. A rule says so itself: elements need have no `==`, and where they have one it
    /// may take different elements for equal.
    fn same(a: Self::Item, b: Self::Item) -> bool
        ensures { Decides result (a ≡ b) };
}

/// 8-bit symbols: 1 where the place has an odd number of one bits, else 0.
pub struct Symbols;

impl Rule for Symbols {
    type Item = u8;

    ghost at = { symbol_at };

    fn item(k: usize) -> u8 {
        (k.count_ones() % 2) as u8
    }

    fn same(a: u8, b: u8) -> bool {
        a == b
    }
}

/// 32-bit place numbers: each place has its own number, up to 2^32 places.
pub struct Numbers;

impl Rule for Numbers {
    type Item = u32;

    ghost at = { number_at };

    fn item(k: usize) -> u32 {
        (k % 4294967296) as u32
    }

    fn same(a: u32, b: u32) -> bool {
        a == b
    }
}

/// Samples: the low seven bits of the place and the seven above them, each taken around 0.
pub struct Samples;

impl Rule for Samples {
    type Item = Sample;

    ghost at = { sample_at };

    fn item(k: usize) -> Sample {
        Sample {
            i: (k % 128) as i16 - 64,
            q: (k / 128 % 128) as i16 - 64,
        }
    }

    fn same(a: Sample, b: Sample) -> bool {
        a == b
    }
}

/// Fills a page by the rule `R`.
pub fn fill<R: Rule>(page: &mut [R::Item])
    ensures { page.new ≡ map R.Rule.at (same (length page.old)) }
{
    for (k, item) in page.iter_mut().enumerate() {
        *item = R::item(k);
    }
}
