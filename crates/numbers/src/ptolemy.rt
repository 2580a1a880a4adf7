//! Ptolemy's relation: the value that a flip gives its edge.
ghost use Rattle.std.specs.Prelude.{◌≡◌};
ghost use Rattle.numbers.specs.Faults.{at_step};
ghost use Rattle.numbers.specs.Ptolemy.{AllStored, Flips, flip_result};

use crate::fault::{CarryFault, FlipFault, Operation, at};
use crate::kind::Kind;

/// The rows around an edge. Its darts d and p begin the triangles d, a, b and p, c, g: these are the rows of the four sides
/// a, b, c and g, and that of the edge itself, e.
#[derive(Clone, Copy, PartialEq, Eq, Debug)]
pub struct Sides<K> {
    pub a: K,
    pub b: K,
    pub c: K,
    pub g: K,
    pub e: K,
}

impl<K: Kind> Sides<K> {
    /// The stored number of (a·c + b·g) ÷ e, or the first operation that has no stored result.
    pub fn flipped(self) -> Result<K, FlipFault>
        ensures flips { AllStored K.numbers self → Flips K.numbers self result }
        ensures result { AllStored K.numbers self → result ≡ flip_result K.numbers self }
    {
        let first = at(Operation::FirstProduct, self.a.product(self.c))?;
        let second = at(Operation::SecondProduct, self.b.product(self.g))?;
        let sum = at(Operation::Sum, first.sum(second))?;
        Ok(at(Operation::Quotient, sum.quotient(self.e))?)
    }

    /// The same at a step of a walk, which a refusal tells.
    pub fn flipped_at(self, step: usize) -> Result<K, CarryFault>
        ensures { AllStored K.numbers self → result ≡ at_step step (flip_result K.numbers self) }
    {
        Ok(at(step, self.flipped())?)
    }
}
