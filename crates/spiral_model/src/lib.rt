//! The words of the scheme: in `specs/` the definitions that every contract of the crates above cites. The parameter sets, the headers
//! of frames and the laws of the ring, which stand in crates below, are named here too.
#![tactic(auto)]

pub use frame_headers::{FrameError, HeaderRead, read_header};
pub use negacyclic as laws;
pub use no_memory::NoMemory;
pub use spiral_sets::{ParamSet, set_at, set_named};
