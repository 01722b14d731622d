//! The command `fetch`: a record is looked up by the server at an address, over a net.
#![tactic(auto)]

mod exchange;
mod fetch;

pub use fetch::fetch_net;
