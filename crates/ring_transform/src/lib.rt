//! The number-theoretic transform modulo a prime that fits a word: the values of polynomials at points whose n-th power is -1,
//! and the polynomials again from their values.
#![tactic(auto)]

mod butterflies;
mod laws;
mod layers;
mod tables;
mod twiddles;

pub use laws::{
    coefficients_of_values, values_determine, values_of_difference, values_of_product,
    values_of_sum,
};
pub use tables::Tables;
