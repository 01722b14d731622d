//! Tests of the client and of the program, over frames written by hand: each public call once, with ample memory, and what no clause
//! says.
#![tactic(auto)]

#[cfg(test)]
mod client;
#[cfg(test)]
mod commands;
#[cfg(test)]
mod expanding;
#[cfg(test)]
mod frames;
#[cfg(test)]
mod names;
#[cfg(test)]
mod packing;
#[cfg(test)]
mod peers;
#[cfg(test)]
mod records;
#[cfg(test)]
mod refusals;
#[cfg(test)]
mod streams;
