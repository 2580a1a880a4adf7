//! What is refused for want of a stored number, from the operation out to the walk. Each fault stands whole inside the next.
ghost use Rattle.std.specs.Prelude.{◌≡◌};
ghost use Rattle.numbers.specs.Faults.{with_place, in_flip, in_carry, carry_fault_number};

/// No stored number has the value that an operation came to.
#[derive(Clone, Copy, PartialEq, Eq, Debug)]
pub struct RangeFault;

/// The operations of a flip, in their order.
#[derive(Clone, Copy, PartialEq, Eq, Debug)]
pub enum Operation {
    FirstProduct,
    SecondProduct,
    Sum,
    Quotient,
}

/// An operation of a flip was refused.
#[derive(Clone, Copy, PartialEq, Eq, Debug)]
pub struct FlipFault {
    pub operation: Operation,
    pub fault: RangeFault,
}

/// A flip was refused at a step of a walk.
#[derive(Clone, Copy, PartialEq, Eq, Debug)]
pub struct CarryFault {
    pub step: usize,
    pub fault: FlipFault,
}

impl CarryFault {
    /// The number by which the refusal is told, which is what is printed; its place is the step.
    pub fn number(self) -> u8
        ensures { result ≡ carry_fault_number self }
    {
        18
    }
}

/// A fault, with the place where it befell. `From` takes one value, so the two go through `?` as one.
#[derive(Clone, Copy)]
pub struct Placed<P, F> {
    pub place: P,
    pub fault: F,
}

/// Says where an answer was refused, if it was.
pub fn at<T, P: Copy, F>(place: P, answer: Result<T, F>) -> Result<T, Placed<P, F>>
    ensures { result ≡ with_place place answer }
{
    answer.map_err(|fault| Placed { place, fault })
}

impl From<Placed<Operation, RangeFault>> for FlipFault {
    ghost from_gives = { λ f r. r ≡ in_flip f };

    fn from(at: Placed<Operation, RangeFault>) -> FlipFault {
        FlipFault {
            operation: at.place,
            fault: at.fault,
        }
    }
}

impl From<Placed<usize, FlipFault>> for CarryFault {
    ghost from_gives = { λ f r. r ≡ in_carry f };

    fn from(at: Placed<usize, FlipFault>) -> CarryFault {
        CarryFault {
            step: at.place,
            fault: at.fault,
        }
    }
}
