ghost use Rattle.std.specs.Prelude.{◌≡◌, ◌<◌, ◌≤◌, MatchResult};
ghost use Rattle.surfaces.specs.Torus.{torus};
ghost use Rattle.surfaces.specs.declared.faults.SurfaceFault.TheVariants.{CountOutside};
ghost use Rattle.surfaces.specs.Rings.{torus_sound};

use crate::faults::SurfaceFault;
use crate::surface_trait::Surface;
use triangulations::darts::Dart;

/// A torus with 1 to 21 punctures in a ring, cut into two triangles for each.
// Ghost fields and no model: what a surface promises holds of every value, and a model's value has no invariant.
#[derive(Clone, Copy)]
pub struct Torus {
    punctures: u8,
    ghost least: { 1 ≤ punctures },
    ghost most: { punctures ≤ 21 },
}

impl Torus {
    /// The torus with so many punctures; counts below 1 and above 21 are refused.
    pub fn new(punctures: u16) -> Result<Torus, SurfaceFault>
        ensures { MatchResult result (λ t. t.punctures ≡ punctures) (λ e. (e ≡ CountOutside) × ((1 ≤ punctures) → 21 < punctures)) }
    {
        // The pattern says the limits and the conversion in one.
        match u8::try_from(punctures) {
            Ok(punctures @ 1..=21) => Ok(Torus { punctures }),
            _ => Err(SurfaceFault::CountOutside),
        }
    }

    /// How many punctures it has.
    pub fn punctures(&self) -> u8
        ensures { result ≡ self.now.punctures }
    {
        self.punctures
    }
}

impl Surface for Torus {
    ghost triangulation = { λ t. torus t.punctures };

    ghost sound = { λ s. torus_sound s.punctures s.least s.most };

    fn edges(&self) -> u8 {
        3 * self.punctures
    }

    fn after(&self, dart: Dart) -> Option<Dart> {
        let m = self.punctures;
        if dart >= 6 * m {
            return None;
        }
        let j = dart / 6;
        let next = match dart % 6 {
            0 => 6 * (if j + 1 == m { 0 } else { j + 1 }) + 2,
            1 => 6 * j + 3,
            2 => 6 * (if j == 0 { m - 1 } else { j - 1 }) + 5,
            3 => 6 * j + 4,
            4 => 6 * j + 1,
            _ => 6 * j,
        };
        Some(next)
    }
}
