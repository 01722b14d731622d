//! The commands over files: making a database, asking, measuring, answering, opening.
#![tactic(auto)]

mod answer;
mod ask;
mod frames;
mod input;
mod noise;
mod open;
mod peer_answer;
mod prepare;
mod random_words;
mod refusals;
mod words_given;

pub use answer::answer_files;
pub use ask::ask_files;
pub use input::InputError;
pub use noise::noise_files;
pub use open::{open_files, open_reply};
pub use peer_answer::PeerAnswer;
pub use prepare::prepare_files;
pub use refusals::{refuse_database, refuse_input};
pub use words_given::{GivenWords, given_words, words_for};
