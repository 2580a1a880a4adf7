ghost use Rattle.std.specs.Prelude.{◌≡◌, ◌-◌, ◌≤◌, length, take, None};
ghost use Rattle.polygons.specs.Judging.{first_fault};

use polygon_counting::diagonal::Diagonal;

/// At most so many diagonals has a polygon.
pub const MOST_DIAGONALS: usize = 30;

/// A polygon with 3 to 33 corners, cut into triangles along the first `corners - 3` of `diagonals`.
// A table with a count beside it: a polygon is copied and needs no heap, and what a surface promises has to follow from the value alone.
#[derive(Clone, Copy, PartialEq, Eq, Debug)]
pub struct Polygon {
    pub(crate) corners: u8,
    pub(crate) diagonals: [Diagonal; MOST_DIAGONALS],
    ghost least: { 3 ≤ corners },
    ghost most: { corners ≤ 33 },
    ghost room: { length diagonals ≡ 30 },
    ghost faultless: { first_fault corners (take (corners - 3) diagonals) ≡ None },
}
