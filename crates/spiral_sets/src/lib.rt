//! The parameter sets of the scheme, and the numbers that depend on a set alone.
#![tactic(auto)]

mod dimensions;
mod param_set;
mod sets;

pub use dimensions::{Q, digit_count};
pub use param_set::ParamSet;
pub use sets::{set_at, set_named};
