//! Polynomials of the ring Z_q[x] / (x^N + 1), N = 256 or 2048, and their arithmetic.
#![tactic(auto)]

mod lanes;
mod pairs;
mod poly;
mod product;
mod ring;
mod sums;

pub use pairs::are_residues;
pub use poly::Poly;
pub use product::PolyT;
pub use ring::Ring;
pub use sums::SumT;
pub use word_prime::Q;
