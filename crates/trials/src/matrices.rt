//! Transposition by tiles, and what it refuses: the examples by which `checks` tries the plain one.
use blocked::transpose_tiled;
use std::test::Fail;

#[test]
fn letters(rt: HostRuntime) -> Result<(), Fail> {
    let mut output = *b"......";
    transpose_tiled(b"abcdef", &mut output, 2, 3)?;
    assert_eq!(rt; output, *b"acebdf");
    Ok(())
}

#[test]
fn no_cells(rt: HostRuntime) -> Result<(), Fail> {
    let mut output: [u8; 0] = [];
    transpose_tiled(&[], &mut output, 0, 5)?;
    transpose_tiled(&[], &mut output, 18446744073709551615, 0)?;
    transpose_tiled(&[], &mut output, 0, 18446744073709551615)?;
    assert!(rt; transpose_tiled(&[], &mut output, 0, 0).is_ok());
    Ok(())
}

/// Width, height, and the refusal's number for an input of 6 and an output of 5.
#[test]
fn refused_and_unchanged(rt: HostRuntime) {
    let cases = [(4294967296, 4294967296, 1), (5, 1, 2), (2, 3, 3)];
    for (width, height, number) in cases {
        let mut output = *b".....";
        let found = transpose_tiled(b"abcdef", &mut output, width, height);
        assert_eq!(rt; found.map_err(|fault| fault.number()), Err(number));
        assert_eq!(rt; output, *b".....");
    }
}
