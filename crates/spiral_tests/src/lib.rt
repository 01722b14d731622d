//! Tests of what the scheme is made of, over fixtures worked by hand: each public call once, with ample memory, and what no clause says.
#![tactic(auto)]

#[cfg(test)]
mod ciphertexts;
#[cfg(test)]
mod expansion;
#[cfg(test)]
mod fixtures;
#[cfg(test)]
mod keys;
#[cfg(test)]
mod packing;
#[cfg(test)]
mod polynomials;
#[cfg(test)]
mod residues;
#[cfg(test)]
mod server;
#[cfg(test)]
mod switching;
