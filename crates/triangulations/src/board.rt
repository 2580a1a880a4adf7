ghost use Rattle.std.specs.Prelude.{T};
ghost use Rattle.triangulations.specs.Stored.{lawful_list};

use crate::table::Table;

// A ghost field and no model: what a board holds is lawful for every caller, and a model's value has no invariant.
/// The memory that holds a lawful triangulation while steps run: the dart that follows each dart in its triangle.
#[derive(Clone, Copy, PartialEq, Eq, Debug)]
pub struct Board {
    pub(crate) table: Table,
    ghost lawful: { T (lawful_list table.edges table.next) },
}
