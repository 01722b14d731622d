//! The command `local`: a whole look-up in one process.
#![tactic(auto)]

mod buffer_link;
mod local;

pub use local::local_files;
