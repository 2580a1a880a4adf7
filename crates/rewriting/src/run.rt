ghost use Rattle.std.specs.Prelude.{◌≡◌};
ghost use Rattle.rewriting.specs.Rewritten.{steps_of};

use triangulations::step::Step;

/// A swap, and at most two turns after it.
#[derive(Clone, Copy)]
pub enum SwapAndTurns {
    Swap([Step; 1]),
    OneTurn([Step; 2]),
    TwoTurns([Step; 3]),
}

impl SwapAndTurns {
    /// Its steps in turn.
    pub fn as_slice(&self) -> &[Step]
        ensures { result.now ≡ steps_of self.now }
    {
        match self {
            SwapAndTurns::Swap(steps) => steps,
            SwapAndTurns::OneTurn(steps) => steps,
            SwapAndTurns::TwoTurns(steps) => steps,
        }
    }
}
