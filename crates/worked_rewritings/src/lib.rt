//! Worked rewritings, by evaluation: the function computes nothing, and its contract is what the definitions come to.
#![tactic(auto)]

ghost use Rattle.worked_rewritings.specs.Worked.{WorkedRewritings};

/// On every triangulation: a turn does not pass a swap, and T(5) S(5, 6) under carry over, way 0, is refused with 14; a swap passes a
/// turn, and S(5, 6) T(5) becomes T(6) S(5, 6).
pub fn carried_over()
    ensures { WorkedRewritings }
{}
