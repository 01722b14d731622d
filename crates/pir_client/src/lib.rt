//! The client of a private look-up: it makes keys and a query from random words, measures the query's noise, and opens the reply.
#![tactic(auto)]

mod asking;
mod dealing;
mod messages;
mod opening;
mod query;
mod query_message;
mod state;

pub use asking::{AskError, Asked, ask, measure_for};
pub use opening::{OpenError, open};
