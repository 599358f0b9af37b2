//! Tiles, one at a time.
use crate::kernels::One;
use std::test::Fail;
use tile::{Plain, Segmented, TileKernel};

/// A count that is nearly full rises to the last number and stays there.
#[test]
fn stops(rt: HostRuntime) -> Result<(), Fail> {
    let input = [5u8; 256];
    let mut output = [0u8; 256];
    let mut kernel = Plain::new(18446744073709551614);
    kernel.transpose_tile(&input, &mut output, 16, 16, 0, 0)?;
    assert_eq!(rt; kernel.moved(), 18446744073709551615);
    kernel.transpose_tile(&input, &mut output, 16, 16, 0, 0)?;
    assert_eq!(rt; kernel.moved(), 18446744073709551615);
    assert!(rt; output == input);
    Ok(())
}

/// A tile in the middle of a matrix of 2 rows of 3 cells.
#[test]
fn one_cell(rt: HostRuntime) -> Result<(), Fail> {
    let mut output = *b"......";
    let mut kernel = One::new(0);
    kernel.transpose_tile(b"abcdef", &mut output, 3, 2, 1, 0)?;
    assert_eq!(rt; output, *b"..b...");
    kernel.transpose_tile(b"abcdef", &mut output, 3, 2, 2, 1)?;
    assert_eq!(rt; output, *b"..b..f");
    assert_eq!(rt; kernel.moved(), 2);
    Ok(())
}

/// Input length, output length, columns, rows, first column, first row: all declined.
#[test]
fn refused_and_unchanged(rt: HostRuntime) {
    let cases = [
        (511, 512, 32, 16, 0, 0),
        (512, 511, 32, 16, 0, 0),
        (512, 512, 31, 16, 0, 0),
        (512, 512, 32, 16, 17, 0),
        (512, 512, 32, 16, 0, 1),
        (512, 512, 32, 16, 18446744073709551615, 0),
        (0, 0, 4294967296, 4294967296, 0, 0),
    ];
    let input = [5u8; 512];
    for (in_len, out_len, cols, rows, x, y) in cases {
        let mut output = [9u8; 512];
        assert!(rt; in_len <= 512 && out_len <= 512);
        let mut kernel = Segmented::new(3);
        let found = kernel.transpose_tile(
            &input[0..in_len],
            &mut output[0..out_len],
            cols,
            rows,
            x,
            y,
        );
        assert_eq!(rt; found.map_err(|fault| fault.number()), Err(9));
        assert_eq!(rt; kernel.moved(), 3);
        assert!(rt; output == [9u8; 512]);
    }
}
