ghost use Rattle.std.specs.Prelude.{◌≡◌};
ghost use Rattle.carrying.specs.Refusals.{refusal_number, refusal_layer, refusal_place};
ghost use Rattle.carrying.specs.declared.refusal.CarryRefusal.TheVariants.{NotStored, NoStoredResult};

use numbers::fault::CarryFault;
use numbers::judge::Unstored;

/// Why values are not carried along a walk.
#[derive(Clone, Copy, PartialEq, Eq, Debug)]
pub enum CarryRefusal {
    /// There are so many rows, and not one for each edge.
    RowCount { count: usize },
    /// The first row that is no stored number.
    NotStored(Unstored),
    /// An operation of a flip has no stored result.
    NoStoredResult(CarryFault),
    /// The walk is none: this step is not legal where those before it lead.
    NotLegal { step: usize },
}

impl CarryRefusal {
    /// The number by which the refusal is told: what is printed. The enum says which refusal it is.
    pub fn number(self) -> u8
        ensures { result ≡ refusal_number self }
    {
        match self {
            CarryRefusal::RowCount { .. } => 19,
            CarryRefusal::NotStored(fault) => fault.number(),
            CarryRefusal::NoStoredResult(fault) => fault.number(),
            CarryRefusal::NotLegal { .. } => 10,
        }
    }

    /// The layer that refuses: 3 is the walk, 6 the numbers.
    pub fn layer(self) -> u8
        ensures { result ≡ refusal_layer self }
    {
        match self {
            CarryRefusal::RowCount { .. }
            | CarryRefusal::NotStored(_)
            | CarryRefusal::NoStoredResult(_) => 6,
            CarryRefusal::NotLegal { .. } => 3,
        }
    }

    /// How many rows there are, or the index of the row or the step.
    pub fn place(self) -> usize
        ensures { result ≡ refusal_place self }
    {
        match self {
            CarryRefusal::RowCount { count } => count,
            CarryRefusal::NotStored(fault) => fault.index,
            CarryRefusal::NoStoredResult(fault) => fault.step,
            CarryRefusal::NotLegal { step } => step,
        }
    }
}

// By hand, both: a clause says which refusal a `?` makes, and a derive has none.
impl From<Unstored> for CarryRefusal {
    ghost from_gives = { λ f r. r ≡ NotStored f };

    fn from(fault: Unstored) -> CarryRefusal {
        CarryRefusal::NotStored(fault)
    }
}

impl From<CarryFault> for CarryRefusal {
    ghost from_gives = { λ f r. r ≡ NoStoredResult f };

    fn from(fault: CarryFault) -> CarryRefusal {
        CarryRefusal::NoStoredResult(fault)
    }
}
