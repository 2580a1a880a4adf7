ghost use Rattle.std.specs.Prelude.{◌≡◌};
ghost use Rattle.triangulations.specs.Boards.{on};
ghost use Rattle.trace_text.specs.Triangles.{smallest_first, triangle_of, rising, triangles_at};

use triangulations::board::Board;
use triangulations::darts::{Dart, Edge, MOST_EDGES};

/// A triangle: its darts in following order, the smallest first.
#[derive(Clone, Copy, PartialEq, Eq, Debug)]
pub struct Triangle {
    pub first: Dart,
    pub second: Dart,
    pub third: Dart,
}

impl Triangle {
    /// The triangle of a dart, or none for a dart that lies outside or does not exist.
    pub fn of(board: &Board, dart: Dart) -> Option<Triangle>
        ensures { result ≡ triangle_of (on board.now).next dart }
    {
        let second = board.after(dart)?;
        let third = board.after(second)?;
        Some(smallest_first(dart, second, third))
    }
}

/// The triangles of the two darts of an edge, the one with the smaller dart first, or none where a dart of it lies outside
/// or does not exist.
pub fn triangles_at(board: &Board, edge: Edge) -> Option<(Triangle, Triangle)>
    ensures { result ≡ triangles_at (on board.now).next edge }
{
    if edge >= MOST_EDGES {
        return None;
    }
    let even = Triangle::of(board, 2 * edge)?;
    let odd = Triangle::of(board, 2 * edge + 1)?;
    Some(rising(even, odd))
}

fn rising(a: Triangle, b: Triangle) -> (Triangle, Triangle)
    ensures { result ≡ rising a b }
{
    if a.first < b.first { (a, b) } else { (b, a) }
}

fn smallest_first(x: Dart, y: Dart, z: Dart) -> Triangle
    ensures { result ≡ smallest_first x y z }
{
    let (first, second, third) = if x < y && x < z {
        (x, y, z)
    } else if y < z {
        (y, z, x)
    } else {
        (z, x, y)
    };
    Triangle {
        first,
        second,
        third,
    }
}
