ghost use Rattle.std.specs.Prelude.{◌≡◌, [], ◌∷◌};
ghost use Rattle.triangulations.specs.Steps.{L, leads};
ghost use Rattle.triangulations.specs.Stored.{stored};
ghost use Rattle.polygons.specs.WorkedWalks.{pentagon, PentagonWalks};

use triangulations::darts::Dart;

/// Five left flips of the two diagonals of a pentagon, in turn, are a swap and turns. Answers the darts that follow the darts 0 to 13
/// where L(5) L(6) L(5) L(6) L(5) leads on the pentagon with the diagonals 0–2 and 0–3.
pub fn pentagon_walks() -> [Option<Dart>; 14]
    ensures table { stored 7 result ≡ leads (L 5 ∷ L 6 ∷ L 5 ∷ L 6 ∷ L 5 ∷ []) pentagon }
    ensures walks { PentagonWalks }
{
    [
        Some(2),
        None,
        Some(12),
        None,
        Some(10),
        None,
        Some(8),
        None,
        Some(11),
        None,
        Some(13),
        Some(6),
        Some(0),
        Some(4),
    ]
}
