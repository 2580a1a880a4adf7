//! What holds of every kind. The functions compute nothing: their contracts are the theorems.
ghost use Rattle.exact.specs.Consequences.{Cancels, Quotients, Diagonals, Undoes, Turns, FiveCycle};
ghost use Rattle.numbers.specs.Numbers.{Single, Results};

use crate::kind::Kind;

/// What follows from the laws of a kind's exact values: a common factor cancels, quotients of quotients, a flip's value is
/// that of Ptolemy's relation and can be undone and read from any corner, and five flips of a pentagon's diagonals exchange them.
pub fn consequences_stand<K: Kind>()
    ensures cancels { Cancels K.numbers.exact }
    ensures quotients { Quotients K.numbers.exact }
    ensures diagonals { Diagonals K.numbers.exact }
    ensures undoes { Undoes K.numbers.exact }
    ensures turns { Turns K.numbers.exact }
    ensures cycle { FiveCycle K.numbers.exact }
{}

/// At most one stored number has a value, and it is the stored result.
pub fn results_stand<K: Kind>()
    ensures single { Single K.numbers }
    ensures results { Results K.numbers }
{}
