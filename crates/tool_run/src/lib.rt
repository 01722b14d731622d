//! The program as one call, over objects that are handed in.
#![tactic(auto)]

mod program;

pub use program::run;
