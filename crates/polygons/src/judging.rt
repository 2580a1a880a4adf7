ghost use Rattle.std.specs.Prelude.{◌≡◌, ◌<◌, ◌≤◌, not, length, take, Ok};
ghost use Rattle.std.specs.List.{list_all};
ghost use Rattle.polygon_counting.specs.Diagonals.{neighbours, proper, leaves, clashes};
ghost use Rattle.polygons.specs.Judging.{diagonal_fault, first_fault, told};

use crate::polygon::MOST_DIAGONALS;
use polygon_counting::diagonal::{Corner, Diagonal};
use surfaces::faults::SurfaceFault;

// Whether two corners below `corners`, the smaller first, are neighbours.
fn are_neighbours(corners: u8, low: Corner, high: Corner) -> bool
    requires { (low < high) × (high < corners) }
    ensures { result ≡ neighbours corners low high }
{
    high == low + 1 || (low == 0 && high + 1 == corners)
}

fn is_proper(corners: u8, diagonal: Diagonal) -> bool
    ensures { result ≡ proper corners diagonal }
{
    let Diagonal { low, high } = diagonal;
    low < high && high < corners && !are_neighbours(corners, low, high)
}

// Whether `b` starts strictly inside `a` and ends strictly beyond it.
fn is_left_by(a: Diagonal, b: Diagonal) -> bool
    ensures { result ≡ leaves a b }
{
    a.low < b.low && b.low < a.high && a.high < b.high
}

fn do_clash(a: Diagonal, b: Diagonal) -> bool
    ensures { result ≡ clashes a b }
{
    is_left_by(a, b) || is_left_by(b, a) || a == b
}

// Whether a diagonal neither crosses nor repeats one of these.
fn is_clear(diagonal: Diagonal, earlier: &[Diagonal]) -> bool
    ensures { result ≡ list_all (λ e. not (clashes diagonal e)) earlier.now }
{
    earlier.iter().all(|e| !do_clash(diagonal, *e))
}

// Diagonals along which a polygon is to be cut; no polygon has more than 30.
#[derive(Drop)]
pub(crate) struct Cut<'a> {
    pub(crate) corners: u8,
    pub(crate) diagonals: &'a [Diagonal],
    ghost few: { length diagonals.now ≤ 30 },
}

impl Cut<'_> {
    // Refuses with the first fault of the diagonals, in their order.
    pub(crate) fn judge(&self) -> Result<(), SurfaceFault>
        ensures { result ≡ told (first_fault self.now.corners self.now.diagonals.now) }
    {
        (0..self.diagonals.len() as u8)
            .find_map(|k| self.fault_of(k))
            .map_or(Ok(()), Err)
    }

    fn fault_of(&self, k: u8) -> Option<SurfaceFault>
        requires { k < length self.now.diagonals.now }
        ensures { result ≡ diagonal_fault self.now.corners self.now.diagonals.now k }
    {
        let diagonal = self.diagonals[k as usize];
        if !is_proper(self.corners, diagonal) {
            Some(SurfaceFault::NotDiagonal(k))
        } else if !is_clear(diagonal, &self.diagonals[..k as usize]) {
            Some(SurfaceFault::Crosses(k))
        } else {
            None
        }
    }

    // A table that begins with the diagonals: that of a `Polygon`, which is `Copy` and needs no heap.
    pub(crate) fn table(&self) -> [Diagonal; MOST_DIAGONALS]
        ensures whole { length result ≡ 30 }
        ensures front { take (length self.now.diagonals.now) result ≡ self.now.diagonals.now }
    {
        let mut table = [Diagonal { low: 0, high: 0 }; MOST_DIAGONALS];
        table[..self.diagonals.len()].copy_from_slice(self.diagonals);
        table
    }
}

/// Refuses at most 30 diagonals of a polygon with their first fault, in their order: 8 where one is none, 9 where it crosses or
/// repeats an earlier one. More, which no polygon has, are not judged.
pub fn judge_diagonals(corners: u8, diagonals: &[Diagonal]) -> Result<(), SurfaceFault>
    ensures judged { length diagonals.now ≤ 30 → result ≡ told (first_fault corners diagonals.now) }
    ensures long { 30 < length diagonals.now → result ≡ Ok tt }
{
    if diagonals.len() > MOST_DIAGONALS {
        return Ok(());
    }
    Cut { corners, diagonals }.judge()
}
