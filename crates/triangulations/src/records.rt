ghost use Rattle.std.specs.Prelude.{◌≡◌, ℕ, IfOk, Ok};
ghost use Rattle.triangulations.specs.Meaning.{Names};
ghost use Rattle.triangulations.specs.Records.{fault_number, record_of, edge_name, rising_swap, reading};

use crate::darts::Edge;
use crate::step::{Flip, Label, Side, Step};

/// Why a step record is refused.
#[derive(Clone, Copy, PartialEq, Eq, Debug)]
pub enum RecordFault {
    /// The code is none of the four, or the unused byte is not 0.
    UnknownCode,
    /// An edge name is not below the number of edges.
    EdgeBeyond,
    /// The names of a swap do not rise.
    NotRising,
}

impl RecordFault {
    /// The number of the refusal, which is what is printed; the enum says which it is.
    pub fn number(self) -> u8
        ensures { result ≡ fault_number self }
    {
        match self {
            RecordFault::UnknownCode => 5,
            RecordFault::EdgeBeyond => 6,
            RecordFault::NotRising => 7,
        }
    }
}

impl Step {
    /// Reads a record of three bytes; its edge names are to be below `edges`.
    pub fn read(bytes: [u8; 3], edges: u8) -> Result<Step, RecordFault>
        ensures read { result ≡ reading edges bytes }
        ensures back { IfOk result (λ s. record_of s ≡ bytes) }
    {
        let step = match bytes {
            [0, e, 0] => Step::Flip(Flip {
                side: Side::Left,
                edge: edge_name(e, edges)?,
            }),
            [1, e, 0] => Step::Flip(Flip {
                side: Side::Right,
                edge: edge_name(e, edges)?,
            }),
            [2, e, 0] => Step::Label(Label::Turn(edge_name(e, edges)?)),
            [3, e, f] => Step::Label(rising_swap(edge_name(e, edges)?, edge_name(f, edges)?)?),
            _ => return Err(RecordFault::UnknownCode),
        };
        Ok(step)
    }

    /// Writes the record of the step.
    pub fn write(self) -> [u8; 3]
        ensures written { result ≡ record_of self }
        ensures back { (edges : ℕ) → Names self edges → reading edges result ≡ Ok self }
    {
        match self {
            Step::Flip(
                Flip {
                    side: Side::Left,
                    edge,
                },
            ) => [0, edge, 0],
            Step::Flip(
                Flip {
                    side: Side::Right,
                    edge,
                },
            ) => [1, edge, 0],
            Step::Label(Label::Turn(e)) => [2, e, 0],
            Step::Label(Label::Swap(e, f)) => [3, e, f],
        }
    }
}

/// The edge with this name, which is to be below `edges`.
pub fn edge_name(name: u8, edges: u8) -> Result<Edge, RecordFault>
    ensures { result ≡ edge_name edges name }
{
    if name < edges {
        Ok(name)
    } else {
        Err(RecordFault::EdgeBeyond)
    }
}

// The swap of two edges whose names are to rise.
fn rising_swap(e: Edge, f: Edge) -> Result<Label, RecordFault>
    ensures { result ≡ rising_swap e f }
{
    if e < f {
        Ok(Label::Swap(e, f))
    } else {
        Err(RecordFault::NotRising)
    }
}
