//! A rule of pages that a caller brings, with elements that have no `==`.
ghost use Rattle.std.specs.Prelude.{◌%◌};

use demo::rules::Rule;
use demo::trips::trip;

/// One of 256 keys.
#[derive(Clone, Copy)]
struct Key {
    code: u8,
}

/// The keys in turn.
struct Keys;

impl Rule for Keys {
    type Item = Key;

    ghost at = { λ k. record { code = k % 256 } };

    fn item(k: usize) -> Key {
        Key {
            code: (k % 256) as u8,
        }
    }

    fn same(a: Key, b: Key) -> bool {
        a.code == b.code
    }
}

#[test]
fn elements_without_equality(rt: HostRuntime) {
    let blank = Key { code: 0 };
    let mut page = [blank; 240];
    let mut sent = page;
    let mut back = page;
    assert_eq!(rt;
        trip::<Keys>("I/NAV", &mut page, &mut sent, &mut back),
        Ok(240)
    );
}
