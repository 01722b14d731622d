//! A query as the server works with it: the ciphertexts of the first dimension and the GSW ciphertexts of its selections.
#![tactic(auto)]

mod expanded_parts;
mod expansion;
mod halves;
mod made_ready;

pub use expansion::expand;
pub use made_ready::ready;
