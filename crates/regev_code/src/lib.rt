//! Regev ciphertexts over the ring: secrets, sampling from words, encryption and phase.
#![tactic(auto)]

mod bodies;
mod checks;
mod cipher;
mod digit_sum;
mod draw;
mod encrypt;
mod form_switch;
mod key_switch;
mod keys;
mod product_form;
mod room;
mod sampling;
mod secret;
mod seeded;

pub use bodies::{KeyBody, QueryBody};
pub use checks::is_cipher;
pub use cipher::{Cipher, phase};
pub use digit_sum::add_digit_sum;
pub use draw::{Draw, draw_cipher, draw_secret};
pub use form_switch::{lift_form, switch_form};
pub use key_switch::{lift_row, switch_key};
pub use keys::{EvalKeys, SwitchKey};
pub use product_form::{CipherT, form_of, forms_of, from_form, to_form};
pub use room::{Room, Scratch};
pub use secret::Secret;
pub use seeded::seeded_words;
