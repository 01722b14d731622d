//! Tests of a server's sessions over a link in memory, over frames written by hand.
#![tactic(auto)]

#[cfg(test)]
mod sessions;
