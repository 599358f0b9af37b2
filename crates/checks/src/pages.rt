//! Pages of the three signals, and what they refuse.
use sample::Sample;
use signal::{deinterleave, interleave};
use std::test::Fail;

/// Name, symbols of a page, a symbol, and the place at which it is sent.
#[test]
fn places(rt: HostRuntime) -> Result<(), Fail> {
    let cases = [
        ("I/NAV", 240, 1, 30),
        ("I/NAV", 240, 8, 1),
        ("I/NAV", 240, 239, 239),
        ("F/NAV", 488, 1, 61),
        ("F/NAV", 488, 8, 1),
        ("L1C", 1748, 1, 38),
        ("L1C", 1748, 46, 1),
    ];
    for (name, n, symbol, place) in cases {
        let mut page = vec![in rt.alloc(); 0u32; n]?;
        let mut sent = vec![in rt.alloc(); 0u32; n]?;
        assert!(rt; symbol < n && place < n);
        page[symbol] = 7;
        interleave(name, &page, &mut sent)?;
        assert_eq!(rt; sent[place], 7);
    }
    Ok(())
}

#[test]
fn samples_come_back(rt: HostRuntime) -> Result<(), Fail> {
    let mut page = [Sample { i: 0, q: -1 }; 240];
    page[0] = Sample { i: 300, q: -300 };
    page[11] = Sample {
        i: -32768,
        q: 32767,
    };
    let mut sent = page;
    let mut back = page;
    interleave("I/NAV", &page, &mut sent)?;
    assert_eq!(rt;
        sent[91],
        Sample {
            i: -32768,
            q: 32767,
        }
    );
    deinterleave("I/NAV", &sent, &mut back)?;
    assert!(rt; back == page);
    Ok(())
}

/// Name, room in the output, and the refusal's number.
#[test]
fn refused_and_unchanged(rt: HostRuntime) {
    let page = [1u8; 240];
    let cases = [
        ("i/nav", 239, 16),
        ("I/NAV ", 240, 16),
        ("", 240, 16),
        ("L1C", 240, 2),
        ("F/NAV", 239, 2),
        ("I/NAV", 239, 3),
        ("I/NAV", 0, 3),
    ];
    for (name, room, number) in cases {
        let mut output = [9u8; 240];
        assert!(rt; room <= 240);
        let sent = interleave(name, &page, &mut output[0..room]);
        assert_eq!(rt; sent.map_err(|fault| fault.number()), Err(number));
        let taken_back = deinterleave(name, &page, &mut output[0..room]);
        assert_eq!(rt; taken_back.map_err(|fault| fault.number()), Err(number));
        assert!(rt; output == [9u8; 240]);
    }
}
