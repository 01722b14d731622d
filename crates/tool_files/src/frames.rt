ghost use Rattle.std.specs.Prelude.{◌≡◌, vec_len, IfOk};
ghost use Rattle.spiral_model.specs.Bodies.{IsSetup, IsQuery};
ghost use Rattle.spiral_model.specs.Replies.{IsState};
ghost use Rattle.spiral_frames.specs.Frames.{IsMessage};
ghost use Rattle.frame_streams.specs.Decoding.{AreKinds};
ghost use Rattle.pir_wire.specs.Messages.{message_seen};
ghost use Rattle.tool_files.specs.Given.{IsAnswer};
ghost use Rattle.tool_files.specs.Inputs.{setup_kinds, query_kinds, answer_kinds, state_kinds, SpellsSetup, SpellsQuery, SpellsState, SpellsAnswer};
ghost use Rattle.tool_files.specs.Reading.{ReadsMessage, SpellsOneOf};

use crate::input::InputError;
use crate::peer_answer::PeerAnswer;
use modulus_switch::ClientState;
use no_memory::NoMemory;
use pir_io::{Files, IoFault, PIECE};
use pir_wire::{FeedError, Message, OneFrame};
use regev_code::{KeyBody, QueryBody};
use std::alloc::{AllocError, Global};

/// Fewer bytes than this have come of a frame at any time.
const FRAME_BOUND: u64 = 16_777_216;

// A buffer for one piece.
fn piece_buffer(alloc: Global) -> Result<Vec<u8>, AllocError>
    ensures { IfOk result (λ buffer. vec_len buffer ≡ PIECE) }
{
    vec![in alloc; 0u8; PIECE]
}

/// Reads a file that has to be one frame, of a kind whose bit stands in `kinds`: piece by piece, up to the first byte that
/// refuses it or to its end.
pub(crate) fn read_frame<F: Files>(
    alloc: Global,
    files: &mut F,
    name: &str,
    kinds: u8,
) -> Result<Message, InputError>
    requires { AreKinds kinds }
    ensures reads { ReadsMessage kinds (SpellsOneOf kinds) (F.seen files.old) (F.seen files.new) name.now result }
    ensures fits { IfOk result (λ m. IsMessage (message_seen m)) }
{
    let Ok(mut buffer) = piece_buffer(alloc) else {
        return Err(InputError::NoMemory);
    };
    let mut frame = match OneFrame::new(alloc, kinds) {
        Ok(frame) => frame,
        Err(NoMemory) => return Err(InputError::NoMemory),
    };
    'pieces: while frame.size() < FRAME_BOUND {
        let count = match files.read_at(name, frame.size(), &mut buffer) {
            Ok(count) => count,
            Err(IoFault::Failed) => return Err(InputError::File),
            Err(IoFault::NoMemory) => return Err(InputError::NoMemory),
        };
        if count == 0 {
            match frame.finish() {
                Ok(message) => return Ok(message),
                Err(error) => return Err(InputError::Frame(error)),
            }
        }
        frame = match frame.feed(&buffer[..count]) {
            Ok(frame) => frame,
            Err(FeedError::Frame(error)) => return Err(InputError::Frame(error)),
            Err(FeedError::NoMemory) => return Err(InputError::NoMemory),
        };
    }
    // No input comes here: it would have been refused.
    Err(InputError::NoMemory)
}

/// Reads a file that has to be one State frame.
pub(crate) fn read_state<F: Files>(
    alloc: Global,
    files: &mut F,
    name: &str,
) -> Result<ClientState, InputError>
    ensures reads { ReadsMessage state_kinds SpellsState (F.seen files.old) (F.seen files.new) name.now result }
    ensures fits { IfOk result (λ state. IsState state) }
{
    match read_frame(alloc, files, name, 32) {
        Ok(Message::State(state)) => Ok(state),
        // No other kind is accepted, so that this doesn't come.
        Ok(_) => Err(InputError::NoMemory),
        Err(error) => Err(error),
    }
}

/// Reads a file that has to be one Setup frame.
pub(crate) fn read_keys<F: Files>(
    alloc: Global,
    files: &mut F,
    name: &str,
) -> Result<KeyBody, InputError>
    ensures reads { ReadsMessage setup_kinds SpellsSetup (F.seen files.old) (F.seen files.new) name.now result }
    ensures fits { IfOk result (λ keys. IsSetup keys) }
{
    match read_frame(alloc, files, name, 2) {
        Ok(Message::Setup(keys)) => Ok(keys),
        // As above.
        Ok(_) => Err(InputError::NoMemory),
        Err(error) => Err(error),
    }
}

/// Reads a file that has to be one Query frame.
pub(crate) fn read_query<F: Files>(
    alloc: Global,
    files: &mut F,
    name: &str,
) -> Result<QueryBody, InputError>
    ensures reads { ReadsMessage query_kinds SpellsQuery (F.seen files.old) (F.seen files.new) name.now result }
    ensures fits { IfOk result (λ query. IsQuery query) }
{
    match read_frame(alloc, files, name, 4) {
        Ok(Message::Query(query)) => Ok(query),
        // As above.
        Ok(_) => Err(InputError::NoMemory),
        Err(error) => Err(error),
    }
}

/// Reads a file that has to be one Reply frame, or one Refuse frame.
pub(crate) fn read_answer<F: Files>(
    alloc: Global,
    files: &mut F,
    name: &str,
) -> Result<PeerAnswer, InputError>
    ensures reads { ReadsMessage answer_kinds SpellsAnswer (F.seen files.old) (F.seen files.new) name.now result }
    ensures fits { IfOk result (λ answer. IsAnswer answer) }
{
    match read_frame(alloc, files, name, 24) {
        Ok(Message::Reply(reply)) => Ok(PeerAnswer::Reply(reply)),
        Ok(Message::Refuse { code, at, .. }) => Ok(PeerAnswer::Refuse { code, place: at }),
        // As above.
        Ok(_) => Err(InputError::NoMemory),
        Err(error) => Err(error),
    }
}
