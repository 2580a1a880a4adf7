//! Values along worked walks: each answer is what the definitions come to, by evaluation.
#![tactic(auto, unfolding(triangulations::specs::Steps::flipped_by, triangulations::specs::Steps::triangle))]

ghost use Rattle.std.specs.Prelude.{◌≡◌, [], ◌∷◌, Ok, Err};
ghost use Rattle.triangulations.specs.Steps.{L};
ghost use Rattle.valued_walks.specs.Worked.{whole, weighing, fractions_on_torus, weights_on_torus, PentagonFractions, reduced_flip};

use kinds::fraction::Fraction;
use kinds::weight::Weight;
use numbers::fault::{CarryFault, FlipFault, Operation, RangeFault};

/// On the torus with one puncture fractions 1, 1, 1 become these under L(2) L(0); L(2) alone makes them 1, 1, 2.
pub fn torus_fractions() -> [Fraction; 3]
    ensures both { fractions_on_torus (L 2 ∷ L 0 ∷ []) [] ≡ Ok result }
    ensures first { fractions_on_torus (L 2 ∷ []) [] ≡ Ok (whole 1 ∷ whole 1 ∷ whole 2 ∷ []) }
{
    [whole(5), whole(1), whole(2)]
}

/// There weights 1, 2, 3 become these under L(2).
pub fn torus_weights() -> [Weight; 3]
    ensures { weights_on_torus (L 2 ∷ []) (weighing 1 ∷ weighing 2 ∷ weighing 3 ∷ []) ≡ Ok result }
{
    [
        Weight { value: 1 },
        Weight { value: 2 },
        Weight { value: 1 },
    ]
}

/// There fractions 2147483647, 1, 1 are refused at L(2): the first product has no stored number.
pub fn torus_refused() -> CarryFault
    ensures { fractions_on_torus (L 2 ∷ []) (whole 2147483647 ∷ []) ≡ Err result }
{
    CarryFault {
        step: 0,
        fault: FlipFault {
            operation: Operation::FirstProduct,
            fault: RangeFault,
        },
    }
}

/// In the pentagon with the diagonals 5 and 6, from fractions all 1, the flips L(5) L(6) L(5) L(6) L(5) give these in turn.
pub fn pentagon_fractions() -> [Fraction; 5]
    ensures { PentagonFractions result }
{
    [whole(2), whole(3), whole(2), whole(1), whole(1)]
}

/// A flip whose first product fits only once it is reduced: (2147483647/2 · 2/2147483647 + 1 · 1) ÷ 1/2.
pub fn reduced_flip() -> Fraction
    ensures { reduced_flip ≡ Ok result }
{
    whole(4)
}

fn whole(n: u32) -> Fraction
    ensures { result ≡ whole n }
{
    Fraction {
        numerator: n,
        denominator: 1,
    }
}
