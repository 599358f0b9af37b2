//! Transposition, and what it refuses.
use std::test::Fail;
use transpose::{test_transpose, transpose};

#[test]
fn letters(rt: HostRuntime) -> Result<(), Fail> {
    let mut output = *b"......";
    transpose(b"abcdef", &mut output, 2, 3)?;
    assert_eq!(rt; output, *b"acebdf");
    Ok(())
}

#[test]
fn no_cells(rt: HostRuntime) -> Result<(), Fail> {
    let mut output: [u8; 0] = [];
    transpose(&[], &mut output, 0, 5)?;
    assert!(rt; transpose(&[], &mut output, 0, 0).is_ok());
    Ok(())
}

/// Width, height, input length, output length, and the answer: accepted, or the refusal's number.
#[test]
fn answers(rt: HostRuntime) {
    let cases = [
        (2, 3, 6, 6, Ok(())),
        (4294967296, 4294967296, 0, 0, Err(1)),
        (9223372036854775808, 2, 0, 0, Err(1)),
        (9223372036854775807, 2, 0, 0, Err(2)),
        (2, 3, 5, 5, Err(2)),
        (2, 3, 7, 6, Err(2)),
        (2, 3, 6, 5, Err(3)),
        (2, 3, 6, 7, Err(3)),
    ];
    for (width, height, input_len, output_len, answer) in cases {
        let told = test_transpose(width, height, input_len, output_len);
        assert_eq!(rt; told.map_err(|fault| fault.number()), answer);
    }
}

/// Width, height, and the refusal's number for an input of 6 and an output of 5.
#[test]
fn refused_and_unchanged(rt: HostRuntime) {
    let cases = [(4294967296, 4294967296, 1), (5, 1, 2), (2, 3, 3)];
    for (width, height, number) in cases {
        let mut output = *b".....";
        let told = transpose(b"abcdef", &mut output, width, height);
        assert_eq!(rt; told.map_err(|fault| fault.number()), Err(number));
        assert_eq!(rt; output, *b".....");
    }
}
