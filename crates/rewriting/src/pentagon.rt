ghost use Rattle.std.specs.Prelude.{◌≡◌, [], ◌∷◌, map};
ghost use Rattle.std.specs.List.{find};
ghost use Rattle.triangulations.specs.Meaning.{meant};
ghost use Rattle.triangulations.specs.Boards.{on};
ghost use Rattle.relations.specs.Pentagons.{followed, corner, corner_of, five, swap_and_turns, pentagon_at};
ghost use Rattle.rewriting.specs.Rewritten.{steps_of};

use crate::run::SwapAndTurns;
use triangulations::board::Board;
use triangulations::darts::{Dart, Edge};
use triangulations::moves::partner;
use triangulations::step::{Label, Step};

// Edges and darts are passed one by one, as the definitions take them: each clause would take a struct of them apart.
/// The darts of two edges in the triangle that they share, that of `e` first, where both can be flipped and they share just
/// one triangle; else `None`.
#[tactic(auto, using(crate::proofs::Corners::corner_found), unfolding(relations::specs::Pentagons::pentagon_at))]
pub fn pentagon_at(board: &Board, e: Edge, f: Edge) -> Option<(Dart, Dart)>
    ensures { result ≡ pentagon_at (on board.now).next e f }
{
    if !board.is_flippable(e) || !board.is_flippable(f) {
        return None;
    }
    let d = 2 * e;
    let c = 2 * f;
    corner_of(board, d, d + 1, c, c + 1)
}

// The first of the four pairs of a dart of the one edge and one of the other that lie in one triangle, their partners not.
fn corner_of(board: &Board, d: Dart, p: Dart, c: Dart, q: Dart) -> Option<(Dart, Dart)>
    ensures { result ≡ find (λ z. corner (on board.now).next z.0 z.1) ((d, c) ∷ (d, q) ∷ (p, c) ∷ (p, q) ∷ []) }
{
    [(d, c), (d, q), (p, c), (p, q)]
        .iter()
        .copied()
        .find(|(x, y)| is_corner(board, *x, *y))
}

// Whether the two darts lie in one triangle, and their partners do not.
#[tactic(auto, unfolding(relations::specs::Pentagons::corner))]
fn is_corner(board: &Board, x: Dart, y: Dart) -> bool
    ensures { result ≡ corner (on board.now).next x y }
{
    board.together(x, y) && !board.together(partner(x), partner(y))
}

// Whether `y` is followed by `x`.
fn is_followed(board: &Board, y: Dart, x: Dart) -> bool
    ensures { result ≡ followed (on board.now).next y x }
{
    board.after(y).unwrap_or(y) == x
}

/// The five flips of a pentagon.
pub fn five_flips(e: Edge, f: Edge) -> [Step; 5]
    ensures { map meant result ≡ five e f }
{
    [e, f, e, f, e].map(Step::left)
}

/// The swap and the turns that they amount to, where `x` and `y` are the darts of `e` and `f` in the triangle that they share.
pub fn swap_and_turns(board: &Board, e: Edge, f: Edge, x: Dart, y: Dart) -> SwapAndTurns
    ensures { map meant (steps_of result) ≡ swap_and_turns e f x y (on board.now).next }
{
    let swap = Step::Label(Label::Swap(e.min(f), e.max(f)));
    match (is_followed(board, y, x), x % 2 != y % 2) {
        (true, true) => SwapAndTurns::TwoTurns([swap, Step::turn(e), Step::turn(f)]),
        (true, false) => SwapAndTurns::Swap([swap]),
        (false, true) => SwapAndTurns::OneTurn([swap, Step::turn(f)]),
        (false, false) => SwapAndTurns::OneTurn([swap, Step::turn(e)]),
    }
}
