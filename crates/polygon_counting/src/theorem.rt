ghost use Rattle.polygon_counting.specs.Theorem.{CutIntoTriangles};

/// A polygon with three diagonals fewer than corners, none of which crosses or repeats another, is cut into triangles:
/// its table is lawful, and one corner, and no other, closes a triangle on the left of each inside dart.
pub fn cut_into_triangles()
    ensures { CutIntoTriangles }
{}
