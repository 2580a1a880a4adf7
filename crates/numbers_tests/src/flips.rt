use crate::common::fraction;
use kinds::fraction::Fraction;
use kinds::weight::Weight;
use numbers::fault::{CarryFault, FlipFault, Operation, RangeFault};
use numbers::ptolemy::Sides;

// The values a, b, c, g, e, and what the flip gives.
const GRANTED: [([(u32, u32); 5], (u32, u32)); 4] = [
    ([(1, 1), (1, 1), (1, 1), (1, 1), (1, 1)], (2, 1)),
    ([(2, 1), (1, 1), (2, 1), (1, 1), (1, 1)], (5, 1)),
    (
        [(2147483647, 2), (1, 1), (2, 2147483647), (1, 1), (1, 2)],
        (4, 1),
    ),
    ([(1, 2), (1, 3), (3, 4), (5, 6), (7, 8)], (47, 63)),
];

// The same, and the operation that is refused.
const REFUSED: [([(u32, u32); 5], Operation); 5] = [
    (
        [(2147483647, 1), (1, 1), (1, 1), (1, 1), (2, 1)],
        Operation::Sum,
    ),
    (
        [(2147483647, 1), (1, 1), (2147483647, 1), (1, 1), (1, 1)],
        Operation::FirstProduct,
    ),
    (
        [(1, 1), (2147483647, 1), (1, 1), (2147483647, 1), (1, 1)],
        Operation::SecondProduct,
    ),
    (
        [(2147483647, 1), (2147483647, 1), (1, 1), (1, 1), (2, 1)],
        Operation::Sum,
    ),
    (
        [(1, 1), (1, 1), (1, 1), (1, 1), (1, 2147483647)],
        Operation::Quotient,
    ),
];

fn flipped(parts: [(u32, u32); 5]) -> Result<Fraction, FlipFault> {
    let [a, b, c, g, e] = parts.map(fraction);
    Sides { a, b, c, g, e }.flipped()
}

#[test]
fn granted(rt: HostRuntime) {
    for (parts, value) in GRANTED {
        assert_eq!(rt; flipped(parts), Ok(fraction(value)));
    }
}

#[test]
fn refused(rt: HostRuntime) {
    for (parts, operation) in REFUSED {
        let fault = RangeFault;
        assert_eq!(rt; flipped(parts), Err(FlipFault { operation, fault }));
    }
}

#[test]
fn weights(rt: HostRuntime) {
    let one = Weight { value: 1 };
    let two = Weight { value: 2 };
    let three = Weight { value: 3 };
    let sides = Sides {
        a: one,
        b: two,
        c: one,
        g: two,
        e: three,
    };
    assert_eq!(rt; sides.flipped(), Ok(one));
}

// The number's fault stands whole inside that of the flip, and that inside the carry's.
#[test]
fn steps(rt: HostRuntime) {
    let one = fraction((1, 1));
    let most = fraction((2147483647, 1));
    let fault = CarryFault {
        step: 3,
        fault: FlipFault {
            operation: Operation::FirstProduct,
            fault: RangeFault,
        },
    };
    let sides = Sides {
        a: most,
        b: one,
        c: most,
        g: one,
        e: one,
    };
    assert_eq!(rt; sides.flipped_at(3), Err(fault));
    assert_eq!(rt; fault.number(), 18);
}
