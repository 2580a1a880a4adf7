//! The list of rewritings, as a relation on walks, and what every listed rewriting keeps. The functions compute nothing:
//! their contracts are the theorems.
#![tactic(auto)]

ghost use Rattle.relations.specs.Theorems.{RewritingKeeps, CertificateKeeps, JudgingStands};

use exact::ExactField;

/// A legal walk and what a listed rewriting makes of it are both legal, lead to one labelled triangulation, and lead any
/// starting values to the same values on every edge: on every lawful triangulation, in every field that keeps its laws.
pub fn rewriting_keeps<E: ExactField>()
    ensures { RewritingKeeps E.ExactField.field }
{}

/// And so for any number of rewritings, one after the other.
pub fn certificate_keeps<E: ExactField>()
    ensures { CertificateKeeps E.ExactField.field }
{}

/// The judging of a record grants exactly what the relation lists, and refuses for the reason that holds.
pub fn judging_stands()
    ensures { JudgingStands }
{}
