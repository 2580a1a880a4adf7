//! What a kind of numbers is.
ghost use Rattle.std.specs.Prelude.{◌≡◌, ℕ, Decides};
ghost use Rattle.numbers.specs.Numbers.{Numbers, Lawful, Sums, Multiplies, Divides};
ghost use Rattle.numbers.specs.Layouts.{Layout, Bounded, Reads};
ghost use Rattle.numbers.specs.Texts.{Written};

use crate::fault::RangeFault;

/// A slice is too short for a text, which needs so many bytes.
#[derive(Clone, Copy, PartialEq, Eq, Debug)]
pub struct ShortSlice {
    pub needed: usize,
}

/// A kind of numbers. A value of the type is a plain row, and `is_stored` tells whether it is a stored number. The operations
/// answer the stored number whose value is the exact result, and refuse exactly when there is none, of operands that are
/// stored numbers; of other rows nothing is said but that they are safe.
pub trait Kind: Copy {
    /// The mark of the kind in a file.
    const MARK: u8;

    /// How many bytes a number has there.
    const WIDTH: usize;

    // The same two in the laws, which tie them to the layout.
    ghost MARK: { ℕ };

    ghost WIDTH: { ℕ };

    ghost numbers: { Numbers Self };

    ghost layout: { Layout Self };

    /// Whether the row is a stored number.
    fn is_stored(self) -> bool
        ensures { Decides result (numbers.stored self) };

    fn sum(self, other: Self) -> Result<Self, RangeFault>
        ensures { Sums numbers self other result };

    fn product(self, other: Self) -> Result<Self, RangeFault>
        ensures { Multiplies numbers self other result };

    fn quotient(self, other: Self) -> Result<Self, RangeFault>
        ensures { Divides numbers self other result };

    /// The stored number whose bytes these are, high byte first.
    fn read(bytes: &[u8]) -> Option<Self>
        ensures { Reads numbers layout bytes.now result };

    /// Writes the text to the front of `out`, and tells how many bytes it has. No `Display`: the text is fixed byte by byte, and
    /// needs no heap.
    fn text(self, out: &mut [u8]) -> Result<usize, ShortSlice>
        ensures { Written (layout.text self) out.old out.new result };

    ghost lawful: { Lawful numbers };

    ghost bounded: { Bounded numbers layout };

    ghost mark_is: { MARK ≡ layout.mark };

    ghost width_is: { WIDTH ≡ layout.width };
}
