ghost use Rattle.std.specs.Prelude.{◌≤◌, ◌<◌};

use pir_wire::{FeedError, Message, OneFrame};
use std::alloc::Global;

/// Accepts the kind Setup.
const SETUP: u8 = 2;

/// The message that bytes are which come in pieces of so many; `None` where they are none, or memory was wanting.
fn read_setup(alloc: Global, bytes: &[u8], size: u32) -> Option<Message>
    requires { 1 ≤ size }
{
    let mut frame = OneFrame::new(alloc, SETUP).ok()?;
    let mut at = 0;
    'pieces: while at < bytes.len() {
        let count = (size as usize).min(bytes.len() - at);
        frame = match frame.feed(&bytes[at..at + count]) {
            Ok(frame) => frame,
            Err(FeedError::Frame(_)) => return None,
            Err(FeedError::NoMemory) => return None,
        };
        at += count;
    }
    frame.finish().ok()
}

/// Reads bytes in pieces of so many, and answers whether they are one Setup frame.
pub(crate) fn is_setup(alloc: Global, bytes: &[u8], size: u32) -> bool {
    match read_setup(alloc, bytes, size.max(1)) {
        Some(Message::Setup(_)) => true,
        _ => false,
    }
}
