//! The headers of frames, and why an input is refused as a frame.
#![tactic(auto)]

mod frame_error;
mod header;
mod kind;

pub use frame_error::FrameError;
pub use header::{HeaderRead, number_at, push_header, read_header};
pub use kind::FrameKind;
