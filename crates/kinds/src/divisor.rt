//! Common divisors.
ghost use Rattle.std.specs.Int.{IsGcd};

/// The greatest common divisor, by Euclid's algorithm.
pub fn gcd(a: u64, b: u64) -> u64
    ensures { IsGcd a b result }
{
    let mut a = a;
    let mut b = b;
    // It counts nothing: the remainders fall.
    while b != 0 {
        let rest = a % b;
        a = b;
        b = rest;
    }
    a
}
