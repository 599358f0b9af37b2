//! Frames of the antenna, transposed with kernels that count.
#![tactic(auto)]

ghost use Rattle.framing.specs.Frames.{counts_of, framed};
ghost use Rattle.fault.specs.Tests.{after_call, answering};
ghost use Rattle.places.specs.Turn.{transposed};
ghost use Rattle.std.specs.Prelude.{◌≡◌, length};

use blocked::{tiles, transpose};
use fault::Fault;
use tile::{Plain, Segmented, TileKernel};

/// How many tiles were announced, and how many each kernel then counted.
#[derive(Clone, Copy, PartialEq, Eq, Debug)]
pub struct Counts {
    pub announced: u64,
    pub tiled: u64,
    pub leaf: u64,
}

/// Transposes a frame of `height` rows of `width` cells with two fresh kernels, and answers their counts. As in
/// `blocked::transpose`, the sides need not fit the buffers.
pub fn frame<T: Copy>(
    input: &[T],
    output: &mut [T],
    width: usize,
    height: usize,
) -> Result<Counts, Fault>
    ensures answer { result ≡ answering (framed width height (length input.now) (length output.old)) (counts_of width height) }
    ensures places { output.new ≡ after_call (framed width height (length input.now) (length output.old)) (transposed width height input.now) output.old }
{
    let mut tiled = Plain::new(0);
    let mut leaf = Segmented::new(0);
    let announced = tiles(width, height, &tiled, &leaf)?;
    transpose(input, output, width, height, &mut tiled, &mut leaf)?;
    Ok(Counts {
        announced,
        tiled: tiled.moved(),
        leaf: leaf.moved(),
    })
}
