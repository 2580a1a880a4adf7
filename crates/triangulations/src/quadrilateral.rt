ghost use Rattle.std.specs.Prelude.{◌≡◌};
ghost use Rattle.triangulations.specs.Steps.{with_d};
ghost use Rattle.triangulations.specs.Meaning.{direction};

use crate::darts::Dart;
use crate::step::Side;

/// The two triangles at an edge that can be flipped, d, a, b and p, c, g in following order, where d and p are its darts.
#[derive(Clone, Copy, PartialEq, Eq, Debug)]
pub struct Quadrilateral {
    pub d: Dart,
    pub a: Dart,
    pub b: Dart,
    pub p: Dart,
    pub c: Dart,
    pub g: Dart,
}

impl Quadrilateral {
    // The triangle that a flip to this side makes with d, begun by `first`. The one that it makes with p is that of the other side,
    // begun by p.
    pub(crate) fn begun_by(self, first: Dart, side: Side) -> [Dart; 3]
        ensures { result ≡ with_d (direction side) first self.a self.b self.c self.g }
    {
        match side {
            Side::Left => [first, self.b, self.c],
            Side::Right => [first, self.g, self.a],
        }
    }
}
