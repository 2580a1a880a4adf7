ghost use Rattle.std.specs.Prelude.{◌≡◌};
ghost use Rattle.case_file.specs.Refusals.{refusal_number, refusal_layer, refusal_place};

use numbers::fault::CarryFault;
use triangulations::records::RecordFault;

/// Why a case is refused.
#[derive(Clone, Copy, PartialEq, Eq, Debug)]
pub enum Refusal {
    /// The file ends too early.
    EndsEarly { length: usize },
    /// The mark at this offset is unknown.
    UnknownMark { offset: usize },
    /// The count at this offset is outside its limits.
    CountOutside { offset: usize },
    /// The pair of corners with this index is no diagonal.
    NotDiagonal { index: usize },
    /// The diagonal with this index crosses or repeats an earlier one.
    Crosses { index: usize },
    /// The step record with this index in its section has a fault.
    StepRecord { index: usize, fault: RecordFault },
    /// The edge that the step with this index flips is not flippable.
    NotFlippable { index: usize },
    /// The bytes of the value with this index are no number of the kind.
    NotNumber { index: usize },
    /// An operation of a flip has no stored result.
    NoStoredResult { fault: CarryFault },
    /// There are neither 0 nor E values, but so many.
    ValueCount { count: usize },
}

impl Refusal {
    /// The number by which the refusal is told.
    // A number, since it is what is printed; the enum says which refusal it is.
    pub fn number(self) -> u8
        ensures { result ≡ refusal_number self }
    {
        match self {
            Refusal::EndsEarly { .. } => 1,
            Refusal::UnknownMark { .. } => 3,
            Refusal::CountOutside { .. } => 4,
            Refusal::NotDiagonal { .. } => 8,
            Refusal::Crosses { .. } => 9,
            Refusal::StepRecord { fault, .. } => fault.number(),
            Refusal::NotFlippable { .. } => 10,
            Refusal::NotNumber { .. } => 17,
            Refusal::NoStoredResult { fault } => fault.number(),
            Refusal::ValueCount { .. } => 19,
        }
    }

    /// The layer that refuses: 1 is the file, 2 the surface, 3 the walk, 6 the numbers.
    pub fn layer(self) -> u8
        ensures { result ≡ refusal_layer self }
    {
        match self {
            Refusal::EndsEarly { .. }
            | Refusal::UnknownMark { .. }
            | Refusal::CountOutside { .. } => 1,
            Refusal::NotDiagonal { .. } | Refusal::Crosses { .. } => 2,
            Refusal::StepRecord { .. } | Refusal::NotFlippable { .. } => 3,
            Refusal::NotNumber { .. }
            | Refusal::NoStoredResult { .. }
            | Refusal::ValueCount { .. } => 6,
        }
    }

    /// The length of the file, an offset in it, the index of a pair, a step or a value, or how many values there are.
    pub fn place(self) -> usize
        ensures { result ≡ refusal_place self }
    {
        match self {
            Refusal::EndsEarly { length } => length,
            Refusal::UnknownMark { offset } | Refusal::CountOutside { offset } => offset,
            Refusal::NotDiagonal { index }
            | Refusal::Crosses { index }
            | Refusal::StepRecord { index, .. }
            | Refusal::NotFlippable { index }
            | Refusal::NotNumber { index } => index,
            Refusal::NoStoredResult { fault } => fault.step,
            Refusal::ValueCount { count } => count,
        }
    }
}
