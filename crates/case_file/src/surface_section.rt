ghost use Rattle.std.specs.Prelude.{◌≡◌, ◌-◌, ◌*◌, ◌≤◌, cond, length, take};
ghost use Rattle.polygons.specs.Meaning.{triangulation_of};
ghost use Rattle.case_file.specs.Reading.{Gives, position};
ghost use Rattle.case_file.specs.Sections.{meaning, whole_pairs, pairs_in, surface_refusal, polygon_at, surface_at};
ghost use Rattle.surfaces.specs.Rings.{torus_sound};
ghost use Rattle.polygons.specs.Shape.{polygon_sound};

use crate::cursor::Cursor;
use crate::refusal::Refusal;
use arrayvec::ArrayVec;
use polygon_counting::diagonal::Diagonal;
use polygons::judging::judge_diagonals;
use polygons::polygon::{MOST_DIAGONALS, Polygon};
use surfaces::faults::SurfaceFault;
use surfaces::surface_trait::Surface;
use surfaces::torus::Torus;
use triangulations::darts::Dart;

/// The surface of a case.
#[derive(Clone, Copy)]
pub enum CaseSurface {
    Torus(Torus),
    Polygon(Polygon),
}

// Its methods are matches, since no generic code ranges over the cases of an enum.
impl Surface for CaseSurface {
    ghost use Rattle.case_file.specs.declared.surface_section.CaseSurface.TheVariants as surface;

    ghost triangulation = { meaning };

    ghost sound = { elim [
      | surface.Torus t ↦ torus_sound t.punctures t.least t.most
      | surface.Polygon p ↦ polygon_sound p
    ] };

    fn edges(&self) -> u8 {
        match self {
            CaseSurface::Torus(torus) => torus.edges(),
            CaseSurface::Polygon(polygon) => polygon.edges(),
        }
    }

    fn after(&self, dart: Dart) -> Option<Dart> {
        match self {
            CaseSurface::Torus(torus) => torus.after(dart),
            CaseSurface::Polygon(polygon) => polygon.after(dart),
        }
    }
}

/// Reads the surface section. An unknown mark is judged before the count that stands before it.
pub fn read_surface(from: &mut Cursor) -> Result<CaseSurface, Refusal>
    ensures { Gives meaning result (position from.new) (surface_at (position from.old)) }
{
    let start = from.offset();
    let count = from.count()?;
    let offset = from.offset();
    match from.mark()? {
        b'P' => {
            if !(3..=33).contains(&count) {
                return Err(Refusal::CountOutside { offset: start });
            }
            Ok(CaseSurface::Polygon(read_polygon(start, count, from)?))
        }
        b'T' => Torus::new(count)
            .map(CaseSurface::Torus)
            .map_err(|_| Refusal::CountOutside { offset: start }),
        _ => Err(Refusal::UnknownMark { offset }),
    }
}

// Reads the diagonals of a polygon, whose count of corners stands at `start`.
fn read_polygon(start: usize, corners: u16, from: &mut Cursor) -> Result<Polygon, Refusal>
    requires { (3 ≤ corners) × (corners ≤ 33) }
    ensures { Gives triangulation_of result (position from.new) (polygon_at start corners (position from.old)) }
{
    let wanted = corners as usize - 3;
    let bytes = from.rest;
    let diagonals = pairs_in(wanted, bytes);
    // A fault of a diagonal comes before the want of a later one.
    judge_diagonals(corners as u8, &diagonals).map_err(|fault| refusal_of(start, fault))?;
    from.rest = bytes
        .get(2 * wanted..)
        .ok_or(Refusal::EndsEarly { length: from.size })?;
    Polygon::new(corners, &diagonals).map_err(|fault| refusal_of(start, fault))
}

// The pairs that the bytes have whole, at most so many.
fn pairs_in(wanted: usize, bytes: &[u8]) -> ArrayVec<Diagonal, MOST_DIAGONALS>
    requires { wanted ≤ 30 }
    ensures { result.items ≡ pairs_in wanted bytes.now }
{
    let (pairs, _) = bytes.as_chunks::<2>();
    let mut diagonals = ArrayVec::new();
    for &[low, high] in &pairs[..wanted.min(pairs.len())] {
        diagonals.push(Diagonal { low, high });
    }
    diagonals
}

// No `From`: the offset stands beside the fault.
fn refusal_of(start: usize, fault: SurfaceFault) -> Refusal
    ensures { result ≡ surface_refusal start fault }
{
    match fault {
        SurfaceFault::CountOutside => Refusal::CountOutside { offset: start },
        SurfaceFault::NotDiagonal(k) => Refusal::NotDiagonal { index: k as usize },
        SurfaceFault::Crosses(k) => Refusal::Crosses { index: k as usize },
    }
}
