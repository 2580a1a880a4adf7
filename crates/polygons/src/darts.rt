ghost use Rattle.std.specs.Prelude.{◌≡◌, ◌==◌, ◌<◌, length};
ghost use Rattle.std.specs.List.{position};
ghost use Rattle.polygon_counting.specs.Polygons.{onward, between, joins, dart_to, joined, closes, apex, ends};
ghost use Rattle.polygons.specs.Meaning.{cut_by, triangulation_of};
ghost use Rattle.polygons.specs.Shape.{polygon_sound};

use crate::polygon::Polygon;
use polygon_counting::diagonal::{Corner, Diagonal};
use surfaces::surface_trait::Surface;
use triangulations::darts::Dart;

impl Surface for Polygon {
    ghost triangulation = { λ p. triangulation_of p };

    ghost sound = { λ s. polygon_sound s };

    fn edges(&self) -> u8 {
        2 * self.corners - 3
    }

    #[tactic(auto, using(crate::specs::Shape::ends_below), unfolding(polygon_counting::specs::Polygons::polygon_next))]
    fn after(&self, dart: Dart) -> Option<Dart> {
        let (u, v) = self.ends(dart)?;
        let w = self.apex(u, v)?;
        self.dart_to(v, w)
    }
}

// Two corners `u` and `v` are passed one by one, as the definitions take them: each clause would take a struct of the two apart.
impl Polygon {
    // The corners from and to which an inside dart runs.
    #[tactic(auto, using(crate::specs::Shape::cut_length, polygon_counting::proofs::Cases::onward_rem), unfolding(polygon_counting::specs::Polygons::ends))]
    fn ends(&self, dart: Dart) -> Option<(Corner, Corner)>
        ensures { result ≡ ends self.now.corners (cut_by self.now) dart }
    {
        let edge = dart / 2;
        let even = dart % 2 == 0;
        if edge < self.corners {
            return even.then_some((edge, (edge + 1) % self.corners));
        }
        let Diagonal { low, high } = *self.diagonals().get((edge - self.corners) as usize)?;
        Some(if even { (low, high) } else { (high, low) })
    }

    // The corner that closes the triangle on the left of the dart from `u` to `v`.
    fn apex(&self, u: Corner, v: Corner) -> Option<Corner>
        ensures { result ≡ apex self.now.corners (cut_by self.now) u v }
    {
        (0..self.corners).find(|&w| self.is_closed_by(u, v, w))
    }

    // Whether `w` is joined to `u` and `v` and is met going counterclockwise from `v` to `u`.
    fn is_closed_by(&self, u: Corner, v: Corner, w: Corner) -> bool
        ensures { result ≡ closes self.now.corners (cut_by self.now) u v w }
    {
        is_between(v, w, u) && self.are_joined(v, w) && self.are_joined(w, u)
    }

    // Whether an inside dart runs from `u` to `v`.
    #[tactic(auto, unfolding(polygon_counting::specs::Polygons::dart_to))]
    fn are_joined(&self, u: Corner, v: Corner) -> bool
        ensures { result ≡ joined self.now.corners (cut_by self.now) u v }
    {
        self.is_side(u, v) || self.find(u, v).is_some()
    }

    // The inside dart from `u` to `v`, where there is one.
    #[tactic(auto, using(crate::specs::Shape::found_diagonal), unfolding(polygon_counting::specs::Polygons::dart_to))]
    fn dart_to(&self, u: Corner, v: Corner) -> Option<Dart>
        requires { u < self.now.corners }
        ensures { result ≡ dart_to self.now.corners (cut_by self.now) u v }
    {
        if self.is_side(u, v) {
            return Some(2 * u);
        }
        let k = self.find(u, v)? as u8;
        Some(2 * (self.corners + k) + if u < v { 0 } else { 1 })
    }

    // Whether `v` is the corner after `u`. Either may be past the last corner, so nothing is added to them.
    fn is_side(&self, u: Corner, v: Corner) -> bool
        ensures { result ≡ (v == onward self.now.corners u) }
    {
        if v == 0 {
            u == self.corners - 1
        } else {
            u == v - 1 && v != self.corners
        }
    }

    // Which diagonal joins `u` and `v`, where one does.
    fn find(&self, u: Corner, v: Corner) -> Option<usize>
        ensures { result ≡ position (joins u v) (cut_by self.now) }
    {
        self.diagonals()
            .iter()
            .position(|diagonal| does_join(u, v, *diagonal))
    }
}

// Whether `w` is met strictly between `v` and `u`, going counterclockwise from `v`.
fn is_between(v: Corner, w: Corner, u: Corner) -> bool
    ensures { result ≡ between v w u }
{
    if v < u {
        v < w && w < u
    } else {
        v < w || w < u
    }
}

fn does_join(u: Corner, v: Corner, diagonal: Diagonal) -> bool
    ensures { result ≡ joins u v diagonal }
{
    diagonal == Diagonal { low: u, high: v } || diagonal == Diagonal { low: v, high: u }
}
