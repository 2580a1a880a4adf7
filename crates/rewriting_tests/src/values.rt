use crate::common::walk_of;
use carrying::carry::carry;
use kinds::fraction::Fraction;
use kinds::weight::Weight;
use numbers::kind::Kind;
use std::process::Abort;
use std::test::Fail;
use surfaces::loading::load;
use surfaces::torus::Torus;
use triangulations::board::Board;

fn fraction(numerator: u32, denominator: u32) -> Fraction {
    Fraction {
        numerator,
        denominator,
    }
}

fn weight(value: i64) -> Weight {
    Weight { value }
}

// Along the walk on the torus with one puncture.
fn carried<K: Kind>(
    rt: &impl Abort,
    records: &[[u8; 3]],
    rows: &mut [K],
) -> Result<Option<(u8, u8, usize)>, Fail> {
    let mut table = Board::new();
    load(&Torus::new(1)?, &mut table);
    let walk = walk_of(rt, records)?;
    let mut board = Board::new();
    let refused = carry(&table, &walk, rows, &mut board).err();
    Ok(refused.map(|refusal| (refusal.number(), refusal.layer(), refusal.place())))
}

// L(2) from fractions 1, 1, 1, and then L(0); a swap exchanges two.
#[test]
fn fractions(rt: HostRuntime) -> Result<(), Fail> {
    let one = fraction(1, 1);
    let mut rows = [one, one, one];
    assert_eq!(rt; carried(&rt, &[[0, 2, 0]], &mut rows)?, None);
    assert!(rt; rows == [one, one, fraction(2, 1)]);
    let mut rows = [one, one, one];
    assert_eq!(rt;
        carried(&rt, &[[0, 2, 0], [2, 1, 0], [0, 0, 0]], &mut rows)?,
        None
    );
    assert!(rt; rows == [fraction(5, 1), one, fraction(2, 1)]);
    let mut rows = [one, one, fraction(1, 2)];
    assert_eq!(rt; carried(&rt, &[[3, 0, 2]], &mut rows)?, None);
    assert!(rt; rows == [fraction(1, 2), one, one]);
    Ok(())
}

#[test]
fn weights(rt: HostRuntime) -> Result<(), Fail> {
    let mut rows = [weight(1), weight(2), weight(3)];
    assert_eq!(rt; carried(&rt, &[[1, 2, 0]], &mut rows)?, None);
    assert!(rt; rows == [weight(1), weight(2), weight(1)]);
    Ok(())
}

// What was carried before a step that is refused stays.
#[test]
fn refusals(rt: HostRuntime) -> Result<(), Fail> {
    let one = fraction(1, 1);
    let large = fraction(2147483647, 1);
    let mut rows = [large, one, one];
    assert_eq!(rt; carried(&rt, &[[0, 2, 0]], &mut rows)?, Some((18, 6, 0)));
    assert!(rt; rows == [large, one, one]);
    let mut rows = [large, one, one];
    assert_eq!(rt;
        carried(&rt, &[[3, 0, 1], [0, 0, 0]], &mut rows)?,
        Some((18, 6, 1))
    );
    assert!(rt; rows == [one, large, one]);
    let mut rows = [one, one];
    assert_eq!(rt; carried(&rt, &[[0, 2, 0]], &mut rows)?, Some((19, 6, 2)));
    let mut rows = [one, fraction(2, 4), fraction(0, 1)];
    assert_eq!(rt; carried(&rt, &[[0, 2, 0]], &mut rows)?, Some((17, 6, 1)));
    let mut rows = [one, one, one];
    assert_eq!(rt;
        carried(&rt, &[[0, 2, 0], [2, 3, 0]], &mut rows)?,
        Some((10, 3, 1))
    );
    assert!(rt; rows == [one, one, fraction(2, 1)]);
    Ok(())
}
