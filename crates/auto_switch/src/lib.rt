//! Automorphisms of scalar ciphertexts: the keys that a client deals for them, and how a server applies them.
#![tactic(auto)]

mod apply;
mod drawing;
mod key;
mod powers;

pub use apply::apply_auto;
pub use drawing::draw_next;
pub use key::auto_key;
pub use powers::{gadget_power, negative_multiple_into};
