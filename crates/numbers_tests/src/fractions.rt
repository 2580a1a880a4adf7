use crate::common::fraction;
use kinds::fraction::Fraction;
use numbers::fault::RangeFault;
use numbers::kind::Kind;

// Rows, and whether they are stored numbers.
const EDGES: [((u32, u32), bool); 8] = [
    ((2147483647, 1), true),
    ((1, 2147483647), true),
    ((2147483648, 1), false),
    ((1, 2147483648), false),
    ((0, 1), false),
    ((1, 0), false),
    ((2, 4), false),
    ((2147483647, 2147483647), false),
];

// Two fractions, and their sum, product and quotient, where these are stored. Some of them fit only once they are reduced, as
// 2147483647/2 and itself, summed.
const WORKED: [(
    (u32, u32),
    (u32, u32),
    Option<(u32, u32)>,
    Option<(u32, u32)>,
    Option<(u32, u32)>,
); 7] = [
    ((1, 2), (1, 3), Some((5, 6)), Some((1, 6)), Some((3, 2))),
    (
        (2147483647, 1),
        (1, 1),
        None,
        Some((2147483647, 1)),
        Some((2147483647, 1)),
    ),
    (
        (2147483647, 2),
        (2147483647, 2),
        Some((2147483647, 1)),
        None,
        Some((1, 1)),
    ),
    (
        (2147483647, 2147483646),
        (2147483646, 2147483647),
        None,
        Some((1, 1)),
        None,
    ),
    ((65536, 1), (32768, 1), Some((98304, 1)), None, Some((2, 1))),
    (
        (1, 1073741824),
        (1, 1073741824),
        Some((1, 536870912)),
        None,
        Some((1, 1)),
    ),
    (
        (1234567891, 2),
        (987654321, 2),
        Some((1111111106, 1)),
        None,
        Some((1234567891, 987654321)),
    ),
];

fn expected(parts: Option<(u32, u32)>) -> Result<Fraction, RangeFault> {
    parts.map(fraction).ok_or(RangeFault)
}

#[test]
fn edges(rt: HostRuntime) {
    for (parts, stored) in EDGES {
        assert_eq!(rt; fraction(parts).is_stored(), stored);
    }
}

#[test]
fn operations(rt: HostRuntime) {
    for (a, b, sum, product, quotient) in WORKED {
        assert_eq!(rt; fraction(a).sum(fraction(b)), expected(sum));
        assert_eq!(rt; fraction(a).product(fraction(b)), expected(product));
        assert_eq!(rt; fraction(a).quotient(fraction(b)), expected(quotient));
    }
}

// Rows that are no stored numbers are safe.
#[test]
fn other_rows(rt: HostRuntime) {
    let zero = fraction((0, 0));
    let large = fraction((u32::MAX, u32::MAX));
    assert_eq!(rt; zero.quotient(zero), Err(RangeFault));
    assert_eq!(rt; large.sum(large), Err(RangeFault));
}
