//! Residues modulo primes that fit a word: one by one, in pairs that stand for a residue of the ring, and in lists
//! place by place.
#![tactic(auto)]

mod arithmetic;
mod lanes;
mod pairs;
mod residues;

pub use arithmetic::{difference_of, product_of, sum_of};
pub use lanes::{
    add_lanes, add_reduced_lanes, mac_lanes, mul_add_lanes, mul_lanes, narrow_lanes, reduce_lanes,
    sub_lanes,
};
pub use pairs::{P1, P2, join_pair, split_pair};
pub use residues::Residue;
pub use spiral_sets::Q;
