//! The keys that a client deals for a set: automorphism keys, lift keys and the conversion key.
#![tactic(auto)]

mod conversion;
mod deal;
mod lifts;
mod rounds;

pub use deal::draw_keys;
