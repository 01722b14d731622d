//! GSW ciphertexts: encryptions of a bit by which other ciphertexts can be multiplied.
#![tactic(auto)]

mod encrypt;
mod gsw;
mod intended;
mod messages;
mod product;

pub use encrypt::encrypt_bit;
pub use gsw::{Gsw, Ready};
pub use intended::{column_message_into, first_message_into, first_value, power_of, selection};
