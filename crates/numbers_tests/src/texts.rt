use kinds::fraction::Fraction;
use kinds::weight::Weight;
use numbers::kind::{Kind, ShortSlice};
use std::process::Abort;

// The text stands at the front of a longer slice, and the bytes past it stay.
fn check_text<K: Kind>(rt: &impl Abort, number: K, text: &str) {
    let mut page = [b'#'; 16];
    assert_eq!(rt; number.text(&mut page), Ok(text.len()));
    assert!(rt; text.len() < 16);
    assert!(rt; &page[..text.len()] == text.as_bytes());
    assert!(rt; page[text.len()] == b'#');
}

#[test]
fn fractions(rt: HostRuntime) {
    let texts = [
        (1, 2000, "0.000"),
        (1999, 2000, "0.999"),
        (2147483647, 1, "2147483647.000"),
        (1, 2147483647, "0.000"),
        (2, 3, "0.666"),
        (2147483647, 2, "1073741823.500"),
        (5, 4, "1.250"),
        (1, 1000, "0.001"),
    ];
    for (numerator, denominator, text) in texts {
        check_text(
            &rt,
            Fraction {
                numerator,
                denominator,
            },
            text,
        );
    }
}

#[test]
fn weights(rt: HostRuntime) {
    let texts = [
        (-1099511627776, "-1099511627776"),
        (1099511627776, "1099511627776"),
        (0, "0"),
        (-1, "-1"),
        (10, "10"),
    ];
    for (value, text) in texts {
        check_text(&rt, Weight { value }, text);
    }
}

#[test]
fn short_slices(rt: HostRuntime) {
    let mut page = [b'#'; 4];
    let two_thirds = Fraction {
        numerator: 2,
        denominator: 3,
    };
    assert_eq!(rt; two_thirds.text(&mut page), Err(ShortSlice { needed: 5 }));
    assert_eq!(rt;
        Weight { value: -1000 }.text(&mut page),
        Err(ShortSlice { needed: 5 })
    );
    assert!(rt; page == [b'#'; 4]);
}
