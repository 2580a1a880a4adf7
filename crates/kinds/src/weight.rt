//! Weights: the larger of two for their sum, their sum for their product, their difference for their quotient.
ghost use Rattle.std.specs.Prelude.{MatchOption, IsErr, refl};
ghost use Rattle.numbers.specs.Numbers.{Answers};
ghost use Rattle.kinds.specs.Weights.{weights, weight_layout};
ghost use Rattle.kinds.specs.Weighed.{weights_lawful, weights_bounded};

use crate::page::put_text;
use itoa::Buffer;
use numbers::fault::RangeFault;
use numbers::kind::{Kind, ShortSlice};

// 2^40, the largest weight; the smallest is its negative.
const LIMIT: i64 = 1099511627776;

/// A weight: stored where it is from -2^40 to 2^40.
#[derive(Clone, Copy, PartialEq, Eq, Debug)]
pub struct Weight {
    pub value: i64,
}

// The weight of a value, if it is a stored number. A value that lies outside an `i64` is none.
fn within(value: Option<i64>) -> Result<Weight, RangeFault>
    ensures { MatchOption value (IsErr result) (λ z. Answers weights z result) }
{
    value
        .map(|value| Weight { value })
        .filter(|weight| weight.is_stored())
        .ok_or(RangeFault)
}

impl Kind for Weight {
    const MARK: u8 = 1;

    const WIDTH: usize = 8;

    ghost MARK = { 1 };

    ghost WIDTH = { 8 };

    ghost numbers = { weights };

    ghost layout = { weight_layout };

    ghost lawful = { weights_lawful };

    ghost bounded = { weights_bounded };

    ghost mark_is = { refl };

    ghost width_is = { refl };

    fn is_stored(self) -> bool {
        -LIMIT <= self.value && self.value <= LIMIT
    }

    fn sum(self, other: Weight) -> Result<Weight, RangeFault> {
        Ok(Weight {
            value: self.value.max(other.value),
        })
    }

    fn product(self, other: Weight) -> Result<Weight, RangeFault> {
        within(self.value.checked_add(other.value))
    }

    fn quotient(self, other: Weight) -> Result<Weight, RangeFault> {
        within(self.value.checked_sub(other.value))
    }

    fn read(bytes: &[u8]) -> Option<Weight> {
        let weight = Weight {
            value: i64::from_be_bytes(bytes.try_into().ok()?),
        };
        weight.is_stored().then_some(weight)
    }

    fn text(self, out: &mut [u8]) -> Result<usize, ShortSlice> {
        let mut digits = Buffer::new();
        put_text(out, digits.format(self.value), b"")
    }
}
