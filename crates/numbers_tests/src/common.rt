use kinds::fraction::Fraction;

/// The fraction with these parts, whether stored or not.
pub(crate) fn fraction((numerator, denominator): (u32, u32)) -> Fraction {
    Fraction {
        numerator,
        denominator,
    }
}
