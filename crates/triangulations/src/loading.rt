ghost use Rattle.std.specs.Prelude.{◌≡◌, ℕ, ◌≤◌, if◌then◌else◌, None, Decides, is_ok};
ghost use Rattle.triangulations.specs.Triangulations.{Lawful};
ghost use Rattle.triangulations.specs.Stored.{stored};
ghost use Rattle.triangulations.specs.Boards.{on};

use crate::board::Board;
use crate::darts::{Dart, MOST_EDGES};
use crate::table::Table;

/// The table gives no lawful triangulation of at most 64 edges.
#[derive(Clone, Copy, PartialEq, Eq, Debug)]
pub struct NotLawful;

impl Board {
    /// A board with no edge.
    pub fn new() -> Board
        ensures edges { (on result).edges ≡ 0 }
        ensures empty { (d : ℕ) → (on result).next d ≡ None }
    {
        let table = Table {
            edges: 0,
            next: [None; 128],
        };
        Board { table }
    }

    /// Loads the triangulation of so many edges that a table gives, where it has at most 64 edges and is lawful;
    /// else the board stays as it was.
    pub fn load(&mut self, edges: u8, table: [Option<Dart>; 128]) -> Result<(), NotLawful>
        ensures granted { Decides (is_ok result) ((edges ≤ 64) × Lawful (stored edges table)) }
        ensures loaded { on self.new ≡ (if is_ok result then stored edges table else on self.old) }
    {
        if edges > MOST_EDGES {
            return Err(NotLawful);
        }
        let table = Table { edges, next: table };
        if !table.is_lawful() {
            return Err(NotLawful);
        }
        *self = Board { table };
        Ok(())
    }
}
