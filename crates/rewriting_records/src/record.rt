ghost use Rattle.std.specs.Prelude.{◌≡◌};
ghost use Rattle.rewriting_records.specs.Records.{spelling};

use triangulations::darts::Edge;
use triangulations::records::{RecordFault, edge_name};
use triangulations::step::Step;

/// A record of a rewriting, as it is written: a rule, a way, a place in the walk, and three more bytes. Rule and way are bytes
/// here, since those of no rewriting are refused by their place; `rewriting` makes the enum of them.
#[derive(Clone, Copy, PartialEq, Eq, Debug)]
pub struct Record {
    pub rule: u8,
    pub way: u8,
    pub place: u16,
    pub code: u8,
    pub e: Edge,
    pub f: Edge,
}

/// A rewriting: a rule and its way, with the step or the edges that the record names.
#[derive(Clone, Copy, PartialEq, Eq, Debug)]
pub enum Rewriting {
    /// Pair, way 0: drops two neighbouring steps, the second of which undoes the first.
    DropPair,
    /// Pair, way 1: puts in a step and the one that undoes it.
    InsertPair(Step),
    /// Double, way 0: two left flips of an edge become its turn.
    JoinDouble,
    /// Double, way 1: a turn becomes two left flips.
    SplitDouble,
    /// Apart: two flips whose edges share no triangle change places.
    Exchange,
    /// Carry over, way 0: a label step moves past the next step.
    CarryRight,
    /// Carry over, way 1: a label step moves before the step that it follows.
    CarryLeft,
    /// Pentagon, way 0: five left flips in turn become a swap and turns.
    ClosePentagon(Edge, Edge),
    /// Pentagon, way 1: a swap and turns become five left flips in turn.
    OpenPentagon(Edge, Edge),
}

impl Record {
    /// The rewriting that the record spells where edges are named below `edges`, or its first fault: the rule, the way or
    /// the code is unknown or an unused byte is not 0; an edge name is too large; the names of a swap do not rise.
    pub fn rewriting(self, edges: u8) -> Result<Rewriting, RecordFault>
        ensures { result ≡ spelling edges self }
    {
        let edge = |name| edge_name(name, edges);
        // A closed list, by rule and way: a rule of the project.
        match (self.rule, self.way, [self.code, self.e, self.f]) {
            (1, 0, [0, 0, 0]) => Ok(Rewriting::DropPair),
            (1, 1, bytes) => Ok(Rewriting::InsertPair(Step::read(bytes, edges)?)),
            (2, 0, [0, 0, 0]) => Ok(Rewriting::JoinDouble),
            (2, 1, [0, 0, 0]) => Ok(Rewriting::SplitDouble),
            (3, 0, [0, 0, 0]) => Ok(Rewriting::Exchange),
            (4, 0, [0, 0, 0]) => Ok(Rewriting::CarryRight),
            (4, 1, [0, 0, 0]) => Ok(Rewriting::CarryLeft),
            (5, 0, [0, e, f]) => Ok(Rewriting::ClosePentagon(edge(e)?, edge(f)?)),
            (5, 1, [0, e, f]) => Ok(Rewriting::OpenPentagon(edge(e)?, edge(f)?)),
            _ => Err(RecordFault::UnknownCode),
        }
    }
}
