//! What holds of the rows that walks give, for every kind. The functions compute nothing: their contracts are the theorems.
ghost use Rattle.carrying.specs.Theorems.{GrantedWhenever, Settled, RowsAgree};

use numbers::kind::Kind;

/// Rows that stand for the same exact values are equal. So a walk and what any number of listed rewritings make of it give equal
/// rows, where both are granted from equal rows.
pub fn rows_agree<K: Kind>()
    ensures settled { Settled K.numbers }
    ensures rewritten { RowsAgree K.numbers }
{}

/// A carry is granted whenever there is a stored number for each edge, the walk is legal, and each exact result on the way has a
/// stored number.
pub fn granting_stands<K: Kind>()
    ensures { GrantedWhenever K.numbers }
{}
