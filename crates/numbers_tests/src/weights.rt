use kinds::weight::Weight;
use numbers::fault::RangeFault;
use numbers::kind::Kind;

// Rows, and whether they are stored numbers.
const EDGES: [(i64, bool); 6] = [
    (1099511627776, true),
    (-1099511627776, true),
    (0, true),
    (1099511627777, false),
    (-1099511627777, false),
    (1125899906842624, false),
];

// Two weights, and their sum, product and quotient, where these are stored.
const WORKED: [(i64, i64, Option<i64>, Option<i64>, Option<i64>); 6] = [
    (-3, 2, Some(2), Some(-1), Some(-5)),
    (5, 2, Some(5), Some(7), Some(3)),
    (
        1099511627776,
        0,
        Some(1099511627776),
        Some(1099511627776),
        Some(1099511627776),
    ),
    (
        1099511627776,
        1,
        Some(1099511627776),
        None,
        Some(1099511627775),
    ),
    (-1099511627776, 1, Some(1), Some(-1099511627775), None),
    (
        -1099511627776,
        -1099511627776,
        Some(-1099511627776),
        None,
        Some(0),
    ),
];

fn weight(value: i64) -> Weight {
    Weight { value }
}

fn expected(value: Option<i64>) -> Result<Weight, RangeFault> {
    value.map(weight).ok_or(RangeFault)
}

#[test]
fn edges(rt: HostRuntime) {
    for (value, stored) in EDGES {
        assert_eq!(rt; weight(value).is_stored(), stored);
    }
}

#[test]
fn operations(rt: HostRuntime) {
    for (a, b, sum, product, quotient) in WORKED {
        assert_eq!(rt; weight(a).sum(weight(b)), expected(sum));
        assert_eq!(rt; weight(a).product(weight(b)), expected(product));
        assert_eq!(rt; weight(a).quotient(weight(b)), expected(quotient));
    }
}

// Rows that are no stored numbers are safe.
#[test]
fn other_rows(rt: HostRuntime) {
    assert_eq!(rt; weight(i64::MAX).product(weight(1)), Err(RangeFault));
}
