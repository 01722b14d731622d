//! Tests of the traits on the outside and their objects: each public call once, with ample memory, and what no clause says.
#![tactic(auto)]

#[cfg(test)]
mod connections;
#[cfg(test)]
mod failing_links;
#[cfg(test)]
mod outside;
#[cfg(test)]
mod slow_peers;
