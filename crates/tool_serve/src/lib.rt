//! The command that answers the queries of peers over a net, session by session.
#![tactic(auto)]

mod serve;
mod session_lines;
mod sessions_served;

pub use serve::serve_net;
