ghost use Rattle.std.specs.Prelude.{◌≡◌};
ghost use Rattle.surfaces.specs.Surfaces.{fault_number};

/// Why a surface is not made.
#[derive(Clone, Copy, PartialEq, Eq, Debug)]
pub enum SurfaceFault {
    /// A count is outside its limits: that of a torus's punctures or of a polygon's corners, or that of a polygon's diagonals, which is
    /// three less than that of its corners.
    CountOutside,
    /// The corners of the diagonal with this index do not rise, are not all corners of the polygon, or are neighbours.
    NotDiagonal(u8),
    /// The diagonal with this index crosses or repeats an earlier one.
    Crosses(u8),
}

impl SurfaceFault {
    /// The number of the refusal, which is what is printed; the enum says which it is.
    pub fn number(self) -> u8
        ensures { result ≡ fault_number self }
    {
        match self {
            SurfaceFault::CountOutside => 4,
            SurfaceFault::NotDiagonal(_) => 8,
            SurfaceFault::Crosses(_) => 9,
        }
    }
}
