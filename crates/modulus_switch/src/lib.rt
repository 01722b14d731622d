//! The modulus switch: a reply's numbers at their small moduli, the client's state, and the opening of the one by
//! the other.
#![tactic(auto)]

mod open;
mod reply;
mod rounding;
mod state;
mod switch;

pub use open::open_matrix;
pub use reply::{Reply, SwitchedPoly};
pub use state::ClientState;
