//! Transposes large frames with kernels that count, and says how many tiles it took.
#![tactic(auto)]

ghost use Rattle.std.specs.Prelude.{◌≤◌};

use demo::rules::{Symbols, fill};
use framing::frame;
use std::io;

/// Transposes a frame of bytes with kernels that count, and says how many tiles it took.
/// Inner: it makes its own buffers, so a frame is no larger than the largest that is shown.
fn show_frame<const N: usize>(rt: &HostRuntime, width: usize, height: usize) -> io::Result<()>
    requires { N ≤ 1064960 }
{
    println!(rt; "a frame of {height} rows of {width} bytes is transposed")?;
    let mut input = [0; N];
    let mut output = [0; N];
    fill::<Symbols>(&mut input);
    match frame(&input, &mut output, width, height) {
        Ok(counts) => {
            println!(rt; "  {} tiles were announced", counts.announced)?;
            println!(rt;
                "  the plain kernel counted {}, the segmented one {}",
                counts.tiled, counts.leaf
            )
        }
        Err(fault) => println!(rt; "  {fault}"),
    }
}

fn main(rt: HostRuntime) -> io::Result<()> {
    show_frame::<1048576>(&rt, 1024, 1024)?;
    show_frame::<1064960>(&rt, 1040, 1024)?;
    show_frame::<0>(&rt, 4097, 4096)
}
