//! Fields of exact values, and what follows from their laws. The functions compute nothing: their contracts are the theorems.
#![tactic(auto)]

ghost use Rattle.exact.specs.Field.{Field, Laws};
ghost use Rattle.exact.specs.Consequences.{Cancels, Quotients, Diagonals, Undoes, Turns, FiveCycle};
ghost use Rattle.exact.specs.Models.{integers, ratios};
ghost use Rattle.exact.specs.ModelsLemmas.{integers_laws, ratios_laws};

/// A field of exact values that keeps the laws.
pub trait ExactField {
    ghost field: { Field };

    ghost lawful: { Laws field };
}

/// The integers, with the larger of two for their sum, and their sum for their product.
#[derive(Clone, Copy, PartialEq, Eq, Debug)]
pub struct Integers;

impl ExactField for Integers {
    ghost field = { integers };

    ghost lawful = { integers_laws };
}

/// The positive fractions.
#[derive(Clone, Copy, PartialEq, Eq, Debug)]
pub struct Ratios;

impl ExactField for Ratios {
    ghost field = { ratios };

    ghost lawful = { ratios_laws };
}

/// A common factor cancels, in every field.
pub fn cancellation_stands<E: ExactField>()
    ensures { Cancels E.ExactField.field }
{}

/// The rules of quotients of quotients, in every field.
pub fn quotients_stand<E: ExactField>()
    ensures { Quotients E.ExactField.field }
{}

/// A flip's value is that of Ptolemy's relation, can be undone, and can be read from any corner, in every field.
pub fn undoing_stands<E: ExactField>()
    ensures diagonals { Diagonals E.ExactField.field }
    ensures undoes { Undoes E.ExactField.field }
    ensures turns { Turns E.ExactField.field }
{}

/// Five flips of a pentagon's diagonals put each in the other's place, in every field.
pub fn five_cycle_stands<E: ExactField>()
    ensures { FiveCycle E.ExactField.field }
{}
