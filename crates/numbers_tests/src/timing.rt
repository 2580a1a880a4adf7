use kinds::fraction::Fraction;
use numbers::ptolemy::Sides;
use std::test::Fail;
use std::time::Instant;

const FLIPS: u32 = 100000;

// A prime below 2^30.
const PRIME: u32 = 1073741789;

// The sum of 663608942 + 2i over the flips i, which are the numerators: none has a factor in common with the prime.
const TOTAL: u64 = 66370894100000;

fn over_prime(numerator: u32) -> Fraction {
    Fraction {
        numerator,
        denominator: PRIME,
    }
}

// A flip's value on large fractions, another each time, takes at most 10 microseconds on the average.
#[test]
fn flips(rt: HostRuntime) -> Result<(), Fail> {
    let one = Fraction {
        numerator: 1,
        denominator: 1,
    };
    let start = Instant::now(&rt)?;
    let mut total: u64 = 0;
    for i in 0..FLIPS {
        let sides = Sides {
            a: over_prime(663608941 + i),
            b: over_prime(1 + i),
            c: one,
            g: one,
            e: one,
        };
        total = total.wrapping_add(sides.flipped()?.numerator as u64);
    }
    let taken = start.elapsed(&rt)?;
    assert_eq!(rt; total, TOTAL);
    assert!(rt; taken.as_millis() < 1000);
    Ok(())
}
