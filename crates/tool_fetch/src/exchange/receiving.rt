ghost use Rattle.std.specs.Prelude.{◌≡◌, IsTrue, vec_len, IfOk};
ghost use Rattle.spiral_frames.specs.Frames.{IsMessage};
ghost use Rattle.frame_streams.specs.Decoding.{AreKinds};
ghost use Rattle.pir_wire.specs.Messages.{message_seen};
ghost use Rattle.tool_files.specs.Given.{IsAnswer};
ghost use Rattle.tool_files.specs.Inputs.{SpellsAnswer, answer_kinds};
ghost use Rattle.tool_files.specs.Reading.{SpellsOneOf};
ghost use Rattle.tool_fetch.specs.Exchanging.{Unread, Receives};

use super::LinkError;
use no_memory::NoMemory;
use pir_io::{IoFault, Link, PIECE};
use pir_wire::{FeedError, Message, OneFrame};
use std::alloc::{AllocError, Global};
use tool_files::PeerAnswer;

/// Fewer bytes than this have come of a frame at any time.
const FRAME_BOUND: u64 = 16_777_216;

// A buffer for one piece.
fn piece_buffer(alloc: Global) -> Result<Vec<u8>, AllocError>
    ensures { IfOk result (λ buffer. vec_len buffer ≡ PIECE) }
{
    vec![in alloc; 0u8; PIECE]
}

// Reads the input of a link, which has to be one frame of a kind whose bit stands in `kinds`: piece by piece, up to the first byte that refuses it
// or to its end.
fn receive_frame<L: Link>(alloc: Global, link: &mut L, kinds: u8) -> Result<Message, LinkError>
    requires open { IsTrue (L.seen link.old).is_open }
    requires unread { Unread (L.seen link.old) }
    requires kinds { AreKinds kinds }
    ensures does { Receives kinds (SpellsOneOf kinds) (L.seen link.old) (L.seen link.new) result }
    ensures fits { IfOk result (λ m. IsMessage (message_seen m)) }
{
    let Ok(mut buffer) = piece_buffer(alloc) else {
        return Err(LinkError::NoMemory);
    };
    let mut frame = match OneFrame::new(alloc, kinds) {
        Ok(frame) => frame,
        Err(NoMemory) => return Err(LinkError::NoMemory),
    };
    'pieces: while frame.size() < FRAME_BOUND {
        let count = match link.read(&mut buffer) {
            Ok(count) => count,
            Err(IoFault::Failed) => return Err(LinkError::Fault),
            Err(IoFault::NoMemory) => return Err(LinkError::NoMemory),
        };
        if count == 0 {
            match frame.finish() {
                Ok(message) => return Ok(message),
                Err(error) => return Err(LinkError::Frame(error)),
            }
        }
        frame = match frame.feed(&buffer[..count]) {
            Ok(frame) => frame,
            Err(FeedError::Frame(error)) => return Err(LinkError::Frame(error)),
            Err(FeedError::NoMemory) => return Err(LinkError::NoMemory),
        };
    }
    // No input comes here: it would have been refused.
    Err(LinkError::NoMemory)
}

/// Receives what a server sends for a query: its input has to be one Reply frame, or one Refuse frame.
pub(crate) fn receive<L: Link>(alloc: Global, link: &mut L) -> Result<PeerAnswer, LinkError>
    requires open { IsTrue (L.seen link.old).is_open }
    requires unread { Unread (L.seen link.old) }
    ensures does { Receives answer_kinds SpellsAnswer (L.seen link.old) (L.seen link.new) result }
    ensures fits { IfOk result (λ answer. IsAnswer answer) }
{
    match receive_frame(alloc, link, 24) {
        Ok(Message::Reply(reply)) => Ok(PeerAnswer::Reply(reply)),
        Ok(Message::Refuse { code, at, .. }) => Ok(PeerAnswer::Refuse { code, place: at }),
        // No other kind is accepted, so that this doesn't come.
        Ok(_) => Err(LinkError::NoMemory),
        Err(error) => Err(error),
    }
}
