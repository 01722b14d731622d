//! Translation: the GSW ciphertext of a bit from the scalar ciphertexts of its digits, with a set's keys.
#![tactic(auto)]

mod columns;
mod translation;

pub use translation::translate;
