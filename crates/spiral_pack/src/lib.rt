//! Scalar ciphertexts made into matrix ciphertexts with a set's lift keys.
#![tactic(auto)]

mod lift;
mod packing;

pub use lift::{lift_form_into, lift_into, lift_key, lift_matrix};
pub use packing::pack;
