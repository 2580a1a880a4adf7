use crate::common::fraction;
use kinds::fraction::Fraction;
use kinds::weight::Weight;
use numbers::judge::{Unstored, judge};
use numbers::read::{MarkedFault, ReadFault, RunFault, read_marked, read_number};

const FRACTIONS: [([u8; 8], Option<(u32, u32)>); 8] = [
    ([0, 0, 0, 1, 0, 0, 1, 0], Some((1, 256))),
    ([1, 2, 3, 4, 0, 0, 0, 1], Some((16909060, 1))),
    ([127, 255, 255, 255, 0, 0, 0, 1], Some((2147483647, 1))),
    ([128, 0, 0, 0, 0, 0, 0, 1], None),
    ([0, 0, 0, 1, 128, 0, 0, 0], None),
    ([0, 0, 0, 1, 0, 0, 0, 0], None),
    ([0, 0, 0, 0, 0, 0, 0, 1], None),
    ([0, 0, 0, 2, 0, 0, 0, 4], None),
];

const WEIGHTS: [([u8; 8], Option<i64>); 7] = [
    ([0, 0, 0, 0, 0, 0, 1, 2], Some(258)),
    ([255, 255, 255, 255, 255, 255, 255, 255], Some(-1)),
    ([0, 0, 1, 0, 0, 0, 0, 0], Some(1099511627776)),
    ([255, 255, 255, 0, 0, 0, 0, 0], Some(-1099511627776)),
    ([0, 0, 1, 0, 0, 0, 0, 1], None),
    ([255, 255, 254, 255, 255, 255, 255, 255], None),
    ([0, 4, 0, 0, 0, 0, 0, 0], None),
];

#[test]
fn fractions(rt: HostRuntime) {
    for (bytes, parts) in FRACTIONS {
        let expected = parts.map(fraction).ok_or(ReadFault::NotStored);
        assert_eq!(rt; read_number::<Fraction>(&bytes), expected);
        assert_eq!(rt; read_number::<Fraction>(&bytes[1..]), Err(ReadFault::Short));
    }
}

#[test]
fn weights(rt: HostRuntime) {
    for (bytes, value) in WEIGHTS {
        let expected = value
            .map(|value| Weight { value })
            .ok_or(ReadFault::NotStored);
        assert_eq!(rt; read_number::<Weight>(&bytes), expected);
    }
}

// A mark and two numbers, of which the second may be none.
#[test]
fn granted_run(rt: HostRuntime) {
    let mut rows = [fraction((9, 9)), fraction((9, 9))];
    let bytes = [2, 0, 0, 0, 1, 0, 0, 0, 2, 0, 0, 0, 3, 0, 0, 0, 4];
    assert_eq!(rt; read_marked(&bytes, &mut rows), Ok(()));
    assert!(rt; rows == [fraction((1, 2)), fraction((3, 4))]);
}

#[test]
fn refused_run(rt: HostRuntime) {
    let mut rows = [fraction((9, 9)), fraction((9, 9))];
    let bytes = [2, 0, 0, 0, 5, 0, 0, 0, 1, 0, 0, 0, 3, 0, 0, 0, 6];
    let fault = RunFault {
        index: 1,
        fault: ReadFault::NotStored,
    };
    assert_eq!(rt;
        read_marked(&bytes, &mut rows),
        Err(MarkedFault::Run(fault))
    );
    assert!(rt; rows == [fraction((5, 1)), fraction((9, 9))]);
}

#[test]
fn marks(rt: HostRuntime) {
    let mut rows = [fraction((9, 9))];
    let short = RunFault {
        index: 0,
        fault: ReadFault::Short,
    };
    assert_eq!(rt; read_marked(&[], &mut rows), Err(MarkedFault::NoMark));
    assert_eq!(rt;
        read_marked(&[1, 0], &mut rows),
        Err(MarkedFault::OtherMark)
    );
    assert_eq!(rt;
        read_marked(&[2, 0], &mut rows),
        Err(MarkedFault::Run(short))
    );
}

#[test]
fn judged(rt: HostRuntime) {
    assert_eq!(rt; judge(&[fraction((1, 2)), fraction((2, 3))]), Ok(()));
    assert_eq!(rt;
        judge(&[fraction((1, 2)), fraction((2, 4)), fraction((0, 0))]),
        Err(Unstored { index: 1 })
    );
}
