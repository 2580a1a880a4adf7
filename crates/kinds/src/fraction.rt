//! Positive fractions in lowest terms.
ghost use Rattle.std.specs.Prelude.{◌<◌, refl};
ghost use Rattle.numbers.specs.Numbers.{Answers};
ghost use Rattle.numbers.specs.Texts.{Written};
ghost use Rattle.kinds.specs.Fractions.{fractions, fraction_layout, over, in_thousandths};
ghost use Rattle.kinds.specs.Lowered.{fractions_lawful, fractions_bounded};

use crate::divisor::gcd;
use crate::page::put_text;
use itoa::Buffer;
use numbers::fault::RangeFault;
use numbers::kind::{Kind, ShortSlice};

// 2^31 - 1, the largest numerator and denominator.
const LARGEST: u32 = 2147483647;

/// A fraction: stored where both parts are from 1 to 2^31 - 1 and have no common factor.
#[derive(Clone, Copy, PartialEq, Eq, Debug)]
pub struct Fraction {
    pub numerator: u32,
    pub denominator: u32,
}

// The stored number of the value top / bottom. The greatest common divisor goes before anything is judged.
fn reduced(top: u64, bottom: u64) -> Result<Fraction, RangeFault>
    ensures { 0 < top → 0 < bottom → Answers fractions (over top bottom) result }
{
    let common = gcd(top, bottom);
    if common == 0 {
        return Err(RangeFault);
    }
    let numerator = top / common;
    let denominator = bottom / common;
    if numerator <= LARGEST as u64 && denominator <= LARGEST as u64 {
        Ok(Fraction {
            numerator: numerator as u32,
            denominator: denominator as u32,
        })
    } else {
        Err(RangeFault)
    }
}

impl Kind for Fraction {
    const MARK: u8 = 2;

    const WIDTH: usize = 8;

    ghost MARK = { 2 };

    ghost WIDTH = { 8 };

    ghost numbers = { fractions };

    ghost layout = { fraction_layout };

    ghost lawful = { fractions_lawful };

    ghost bounded = { fractions_bounded };

    ghost mark_is = { refl };

    ghost width_is = { refl };

    fn is_stored(self) -> bool {
        1 <= self.numerator
            && self.numerator <= LARGEST
            && 1 <= self.denominator
            && self.denominator <= LARGEST
            && gcd(self.numerator as u64, self.denominator as u64) == 1
    }

    fn sum(self, other: Fraction) -> Result<Fraction, RangeFault> {
        let first = self.numerator as u64 * other.denominator as u64;
        let second = other.numerator as u64 * self.denominator as u64;
        let top = first.checked_add(second).ok_or(RangeFault)?;
        reduced(top, self.denominator as u64 * other.denominator as u64)
    }

    fn product(self, other: Fraction) -> Result<Fraction, RangeFault> {
        reduced(
            self.numerator as u64 * other.numerator as u64,
            self.denominator as u64 * other.denominator as u64,
        )
    }

    fn quotient(self, other: Fraction) -> Result<Fraction, RangeFault> {
        let top = self.numerator as u64 * other.denominator as u64;
        let bottom = self.denominator as u64 * other.numerator as u64;
        reduced(top, bottom)
    }

    fn read(bytes: &[u8]) -> Option<Fraction> {
        let (numerator, denominator) = bytes.split_first_chunk()?;
        let fraction = Fraction {
            numerator: u32::from_be_bytes(*numerator),
            denominator: u32::from_be_bytes(denominator.try_into().ok()?),
        };
        fraction.is_stored().then_some(fraction)
    }

    fn text(self, out: &mut [u8]) -> Result<usize, ShortSlice> {
        let scaled = self.numerator as u64 * 1000;
        // A row without a denominator has the text of 0.
        let thousandths = scaled.checked_div(self.denominator as u64).unwrap_or(0);
        put_thousandths(out, thousandths)
    }
}

// Whole part, point, three digits. No format: its text goes to a heap or a writer, and this into the caller's slice.
fn put_thousandths(out: &mut [u8], n: u64) -> Result<usize, ShortSlice>
    ensures { Written (in_thousandths n) out.old out.new result }
{
    let mut whole = Buffer::new();
    let tenth = b'0' + (n / 100 % 10) as u8;
    let hundredth = b'0' + (n / 10 % 10) as u8;
    let thousandth = b'0' + (n % 10) as u8;
    put_text(
        out,
        whole.format(n / 1000),
        &[b'.', tenth, hundredth, thousandth],
    )
}
