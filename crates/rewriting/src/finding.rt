//! What the steps of a walk are.
ghost use Rattle.std.specs.Prelude.{◌≡◌};
ghost use Rattle.relations.specs.Rewritings.{passed};
ghost use Rattle.triangulations.specs.Meaning.{meant};
ghost use Rattle.rewriting.specs.Rewritten.{flip_in, left_in, turn_in};

use triangulations::darts::Edge;
use triangulations::step::{Flip, Label, Side, Step};

// Each names one pattern: one function for all would take the pattern as a closure, and be no shorter.

/// The flip that a step is.
pub fn flip_in(step: Step) -> Option<Flip>
    ensures { result ≡ flip_in step }
{
    match step {
        Step::Flip(flip) => Some(flip),
        Step::Label(_) => None,
    }
}

/// The edge that a left flip flips.
pub fn left_in(step: Step) -> Option<Edge>
    ensures { result ≡ left_in step }
{
    let flip = flip_in(step)?;
    (flip.side == Side::Left).then_some(flip.edge)
}

/// The edge that a turn turns.
pub fn turn_in(step: Step) -> Option<Edge>
    ensures { result ≡ turn_in step }
{
    match step {
        Step::Label(Label::Turn(edge)) => Some(edge),
        _ => None,
    }
}

/// Whether a turn passes the step.
pub fn is_passed(step: Step) -> bool
    ensures { result ≡ passed (meant step) }
{
    !matches!(step, Step::Label(Label::Swap(..)))
}
