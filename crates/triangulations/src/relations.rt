ghost use Rattle.std.specs.Prelude.{◌≡◌};
ghost use Rattle.triangulations.specs.Steps.{L, T, opposite, inverse};
ghost use Rattle.triangulations.specs.Meaning.{direction, meant, meant_flip, meant_label};
ghost use Rattle.triangulations.specs.Theorems.{Undoes, TwiceIs};

use crate::darts::Edge;
use crate::step::{Flip, Label, Side, Step};

impl Side {
    /// The other direction.
    pub fn other(self) -> Side
        ensures { direction result ≡ opposite (direction self) }
    {
        match self {
            Side::Left => Side::Right,
            Side::Right => Side::Left,
        }
    }
}

impl Step {
    /// The left flip of an edge.
    pub fn left(edge: Edge) -> Step
        ensures { meant result ≡ L edge }
    {
        Step::Flip(Flip {
            side: Side::Left,
            edge,
        })
    }

    /// The turn of an edge.
    pub fn turn(edge: Edge) -> Step
        ensures { meant result ≡ T edge }
    {
        Step::Label(Label::Turn(edge))
    }

    /// The step that undoes this one wherever this one is legal: a left flip undoes a right one and a right flip a left one,
    /// and turns and swaps undo themselves.
    pub fn inverse(self) -> Step
        ensures value { meant result ≡ inverse (meant self) }
        ensures undoes { Undoes (meant self) (meant result) }
    {
        match self {
            Step::Flip(flip) => Step::Flip(Flip {
                side: flip.side.other(),
                edge: flip.edge,
            }),
            Step::Label(label) => Step::Label(label),
        }
    }
}

impl Flip {
    /// The label step that this flip amounts to when it is done twice, left or right: the turn of its edge.
    pub fn twice(self) -> Label
        ensures { TwiceIs (meant_flip self) (meant_label result) }
    {
        Label::Turn(self.edge)
    }
}
