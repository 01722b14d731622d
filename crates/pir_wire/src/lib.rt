//! Frames: messages as bytes, and bytes as messages.
#![tactic(auto)]

mod decoder;
mod decoding;
mod encode;
mod header;
mod message;
mod one_frame;
mod reply;
mod residues;

pub use decoder::{Decoder, FeedError};
pub use decoding::{FramedMessage, decode, reading_limit};
pub use encode::{encode_query, encode_refuse, encode_reply, encode_setup, encode_state};
pub use message::Message;
pub use one_frame::OneFrame;
