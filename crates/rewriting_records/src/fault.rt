ghost use Rattle.std.specs.Prelude.{◌≡◌};
ghost use Rattle.rewriting_records.specs.Faults.{rewriting_fault_number, rewriting_fault_layer, rewriting_fault_place};

use triangulations::records::RecordFault;

/// Why a rewriting is refused.
#[derive(Clone, Copy, PartialEq, Eq, Debug)]
pub enum RewritingFault {
    /// The record has a fault.
    BadRecord { place: usize, fault: RecordFault },
    /// The place lies beyond the walk's length.
    PlaceBeyond { place: usize },
    /// The steps before the place are no walk: this one is not legal where those before it lead.
    NotLegal { step: usize },
    /// The steps lack the rule's form.
    NoForm { place: usize },
    /// The rule's condition on edges fails there.
    NoCondition { place: usize },
    /// More than 256 steps would result.
    TooLong,
}

impl RewritingFault {
    /// The number of the refusal.
    // A number, since it is what is printed; the enum says which refusal it is.
    pub fn number(self) -> u8
        ensures { result ≡ rewriting_fault_number self }
    {
        match self {
            RewritingFault::BadRecord { fault, .. } => fault.number(),
            RewritingFault::PlaceBeyond { .. } => 13,
            RewritingFault::NotLegal { .. } => 10,
            RewritingFault::NoForm { .. } => 14,
            RewritingFault::NoCondition { .. } => 15,
            RewritingFault::TooLong => 11,
        }
    }

    /// The layer that refuses: the rewritings, or the walk where its own steps are not legal.
    pub fn layer(self) -> u8
        ensures { result ≡ rewriting_fault_layer self }
    {
        match self {
            RewritingFault::NotLegal { .. } => 3,
            RewritingFault::BadRecord { .. }
            | RewritingFault::PlaceBeyond { .. }
            | RewritingFault::NoForm { .. }
            | RewritingFault::NoCondition { .. }
            | RewritingFault::TooLong => 5,
        }
    }

    /// The place that the refusal names: the rewriting's own, the step that is not legal, or 256.
    pub fn place(self) -> usize
        ensures { result ≡ rewriting_fault_place self }
    {
        match self {
            RewritingFault::BadRecord { place, .. }
            | RewritingFault::PlaceBeyond { place }
            | RewritingFault::NoForm { place }
            | RewritingFault::NoCondition { place } => place,
            RewritingFault::NotLegal { step } => step,
            RewritingFault::TooLong => 256,
        }
    }
}
