//! The server of a private look-up: a database made ready, and its answers to queries.
#![tactic(auto)]

mod answering;
mod folding;
mod results;
mod server;
mod session;

pub use server::Server;
pub use session::{EndCause, SessionEnd};
