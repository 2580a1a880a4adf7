ghost use Rattle.std.specs.Prelude.{◌≡◌, is_ok, Decides};
ghost use Rattle.polygons.specs.Judging.{Admitted, counts_fit};
ghost use Rattle.polygons.specs.Meaning.{cut_by, Made};

use crate::judging::Cut;
use crate::polygon::Polygon;
use polygon_counting::diagonal::Diagonal;
use surfaces::faults::SurfaceFault;

impl Polygon {
    /// The polygon with so many corners, cut along these diagonals. Refused are counts of corners below 3 and above 33, then any count of
    /// diagonals but three less, then the first diagonal that is none, or else crosses or repeats an earlier one.
    #[tactic(auto, using(crate::proofs::Admission::admitted, crate::proofs::Admission::none_first, polygon_counting::proofs::Laws::cut_into_triangles))]
    pub fn new(corners: u16, diagonals: &[Diagonal]) -> Result<Polygon, SurfaceFault>
        ensures granted { Decides (is_ok result) (Admitted corners diagonals.now) }
        ensures made { Made corners diagonals.now result }
    {
        if !fit_together(corners, diagonals.len()) {
            return Err(SurfaceFault::CountOutside);
        }
        let cut = Cut {
            corners: corners as u8,
            diagonals,
        };
        cut.judge()?;
        Ok(Polygon {
            corners: cut.corners,
            diagonals: cut.table(),
        })
    }

    /// How many corners it has.
    pub fn corners(&self) -> u8
        ensures { result ≡ self.now.corners }
    {
        self.corners
    }

    /// The diagonals along which it is cut, in their order.
    pub fn diagonals(&self) -> &[Diagonal]
        ensures { result.now ≡ cut_by self.now }
    {
        &self.diagonals[..self.corners as usize - 3]
    }
}

// Whether there are from 3 to 33 corners, and three diagonals fewer.
fn fit_together(corners: u16, diagonals: usize) -> bool
    ensures { result ≡ counts_fit corners diagonals }
{
    (3..=33).contains(&corners) && diagonals == corners as usize - 3
}
