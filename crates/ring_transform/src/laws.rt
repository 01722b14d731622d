//! The laws of values, each the contract of a function that does nothing.

ghost use Rattle.ring_transform.specs.Laws.{ValuesOfSum, ValuesOfDifference, ValuesOfProduct, ValuesDetermine, CoefficientsOfValues};

/// The values of a sum are the sums of the values.
#[tactic(auto, using(crate::proofs::Whole::values_of_sum))]
pub fn values_of_sum()
    ensures { ValuesOfSum }
{}

/// The values of a difference are the differences of the values.
#[tactic(auto, using(crate::proofs::Whole::values_of_difference))]
pub fn values_of_difference()
    ensures { ValuesOfDifference }
{}

/// The values of the negacyclic product are the products of the values.
#[tactic(auto, using(crate::proofs::Whole::values_of_product))]
pub fn values_of_product()
    ensures { ValuesOfProduct }
{}

/// Polynomials with the same values are the same.
#[tactic(auto, using(crate::proofs::Whole::values_determine))]
pub fn values_determine()
    ensures { ValuesDetermine }
{}

/// The coefficients that belong to the values of a polynomial are its own.
#[tactic(auto, using(crate::proofs::Interpolation::coefficients_of_values))]
pub fn coefficients_of_values()
    ensures { CoefficientsOfValues }
{}
