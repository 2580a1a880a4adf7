ghost use Rattle.std.specs.Prelude.{◌≡◌, [], ◌∷◌};
ghost use Rattle.triangulations.specs.Steps.{L, leads};
ghost use Rattle.surfaces.specs.Torus.{torus};
ghost use Rattle.surfaces.specs.WorkedWalks.{followers, LeftFlipOfTwo};

use triangulations::darts::Dart;

/// The darts that follow the darts 0 to 5 once edge 2 of the torus with one puncture is flipped to the left.
pub fn left_flip_of_two() -> [Dart; 6]
    ensures table { result ≡ followers 6 (leads (L 2 ∷ []) (torus 1)) }
    ensures triangles { LeftFlipOfTwo }
{
    [4, 5, 1, 0, 3, 2]
}
