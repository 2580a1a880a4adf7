//! Rows that a caller hands over, judged before anything is computed.
ghost use Rattle.std.specs.Prelude.{◌≡◌};
ghost use Rattle.numbers.specs.Reading.{Judges, unstored_number};

use crate::kind::Kind;

/// The first row that is no stored number.
#[derive(Clone, Copy, PartialEq, Eq, Debug)]
pub struct Unstored {
    pub index: usize,
}

impl Unstored {
    /// The number by which the refusal is told, which is what is printed; its place is the index.
    pub fn number(self) -> u8
        ensures { result ≡ unstored_number self }
    {
        17
    }
}

/// Whether each row is a stored number, and if not, the first that is none.
pub fn judge<K: Kind>(rows: &[K]) -> Result<(), Unstored>
    ensures { Judges K.numbers rows.now result }
{
    rows.iter()
        .position(|row| !row.is_stored())
        .map_or(Ok(()), |index| Err(Unstored { index }))
}
