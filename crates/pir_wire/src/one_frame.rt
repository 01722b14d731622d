ghost use Rattle.std.specs.Prelude.{◌≡◌, ◌+◌, ◌++◌, ◌<◌, ◌^◌, [], ℕ, List, length, IfOk, Err, Some, MatchResult};
ghost use Rattle.spiral_sets.specs.Sets.{IsSet};
ghost use Rattle.frame_headers.specs.declared.frame_error.FrameError.{FrameError as RefusedFor};
ghost use Rattle.frame_headers.specs.declared.frame_error.FrameError.TheVariants.{Extra};
ghost use Rattle.frame_headers.specs.Kinds.{body_len_of};
ghost use Rattle.spiral_frames.specs.Frames.{IsMessage, frame_of};
ghost use Rattle.spiral_frames.specs.FrameChecks.{one_refusal};
ghost use Rattle.frame_streams.specs.Decoding.{AreKinds};
ghost use Rattle.frame_streams.specs.Heads.{header_of};
ghost use Rattle.frame_streams.specs.OneFrames.{IsOneOf};
ghost use Rattle.pir_wire.specs.declared.decoder.FeedError.TheVariants.{Frame};
ghost use Rattle.pir_wire.specs.Messages.{message_seen};
ghost use Rattle.pir_wire.specs.declared.one_frame.Stage.TheVariants.{Open};
ghost use Rattle.pir_wire.specs.OneFrames.{IsReading, bytes_at_hand};

use crate::decoder::{Decoder, FeedError};
use crate::message::Message;
use frame_headers::{FrameError, FrameKind};
use no_memory::NoMemory;
use spiral_sets::ParamSet;
use std::alloc::Global;
use std::marker::Model;

/// Where the reading of one frame stands.
#[derive(Drop)]
enum Stage {
    /// It isn't whole yet.
    Open(Decoder),
    /// It is, and this is its message.
    Whole(Message),
}

/// An input that has to be one frame, as it comes in pieces. Seen as the kinds that are accepted and the bytes that have come.
#[derive(Drop)]
pub struct OneFrame {
    kinds: u8,
    size: u64,
    stage: Stage,
}

impl Model for OneFrame {
    ghost use Rattle.pir_wire.specs.OneFrames.{OneRead, IsReading, bytes_so_far};

    ghost Value = { OneRead };

    ghost view = { λ f. record { kinds = f.kinds; bytes = bytes_so_far f.stage } };

    ghost invariant = { λ f. IsReading f.kinds f.size (bytes_so_far f.stage) f.stage };
}

/// How many bytes a frame of that kind and set has.
fn frame_len(kind: FrameKind, set: &ParamSet) -> u64
    requires { IsSet set.now }
    ensures { result ≡ length (header_of kind set.now) + body_len_of kind set.now }
{
    15 + set.name().len() as u64 + kind.body_len(set)
}

impl Message {
    /// How many bytes its frame has.
    pub fn frame_len(&self) -> u64
        requires { IsMessage (message_seen self.now) }
        ensures { result ≡ length (frame_of (message_seen self.now)) }
    {
        match self {
            Message::Setup(keys) => frame_len(FrameKind::Setup, &keys.set),
            Message::Query(query) => frame_len(FrameKind::Query, &query.set),
            Message::Reply(reply) => frame_len(FrameKind::Reply, &reply.set()),
            Message::Refuse { set, .. } => frame_len(FrameKind::Refuse, set),
            Message::State(state) => frame_len(FrameKind::State, &state.set),
        }
    }
}

/// A byte behind a whole frame.
fn extra(message: &Message) -> FeedError
    requires { IsMessage (message_seen message.now) }
    ensures { result ≡ Frame (Extra (length (frame_of (message_seen message.now)))) }
{
    FeedError::Frame(FrameError::Extra {
        place: message.frame_len(),
    })
}

/// Bytes come while the frame isn't whole yet.
fn feed_open(
    kinds: u8,
    size: u64,
    mut decoder: Decoder,
    piece: &[u8],
) -> Result<OneFrame, FeedError>
    requires reading { IsReading kinds size (bytes_at_hand decoder.condition) (Open decoder) }
    requires piece { length piece.now < 2 ^ 32 }
    ensures read { IfOk result (λ f. f ≡ record { kinds = kinds; bytes = bytes_at_hand decoder.condition ++ piece.now }) }
    ensures refused { (error : RefusedFor) (rest : List ℕ) → result ≡ Err (Frame error) → one_refusal kinds ((bytes_at_hand decoder.condition ++ piece.now) ++ rest) ≡ Some error }
{
    let size = size + piece.len() as u64;
    match decoder.feed(piece) {
        Ok(()) => match decoder.take() {
            None => Ok(OneFrame {
                kinds,
                size,
                stage: Stage::Open(decoder),
            }),
            Some(message) if message.frame_len() < size => Err(extra(&message)),
            Some(message) => Ok(OneFrame {
                kinds,
                size,
                stage: Stage::Whole(message),
            }),
        },
        Err(FeedError::Frame(error)) => match decoder.take() {
            None => Err(FeedError::Frame(error)),
            Some(message) => Err(extra(&message)),
        },
        Err(FeedError::NoMemory) => Err(FeedError::NoMemory),
    }
}

impl OneFrame {
    /// Nothing has come yet. Bit k of `kinds` says that kind k is accepted, for k from 1 to 5.
    pub fn new(alloc: Global, kinds: u8) -> Result<OneFrame, NoMemory>
        requires { AreKinds kinds }
        ensures { IfOk result (λ f. f ≡ record { kinds = kinds; bytes = [] }) }
    {
        let decoder = Decoder::new(alloc, kinds)?;
        Ok(OneFrame {
            kinds,
            size: 0,
            stage: Stage::Open(decoder),
        })
    }

    /// How many bytes have come: fewer than 2^24, since every frame has.
    pub fn size(&self) -> u64
        ensures value { result ≡ length self.now.bytes }
        ensures short { result < 2 ^ 24 }
    {
        self.size
    }

    /// The next bytes of the input. It is refused as soon as a byte shows that it isn't one frame: whatever follows, this is
    /// then its refusal. An error says else that memory was wanting.
    pub fn feed(self, piece: &[u8]) -> Result<OneFrame, FeedError>
        requires { length piece.now < 2 ^ 32 }
        ensures read { IfOk result (λ f. f ≡ record self { bytes = self.bytes ++ piece.now }) }
        ensures refused { (error : RefusedFor) (rest : List ℕ) → result ≡ Err (Frame error) → one_refusal self.kinds ((self.bytes ++ piece.now) ++ rest) ≡ Some error }
    {
        let Self { kinds, size, stage } = self;
        match stage {
            Stage::Open(decoder) => feed_open(kinds, size, decoder, piece),
            Stage::Whole(message) if piece.is_empty() => Ok(OneFrame {
                kinds,
                size,
                stage: Stage::Whole(message),
            }),
            Stage::Whole(message) => Err(extra(&message)),
        }
    }

    /// The message, where the input ends here; else why it isn't one frame: it ends inside it.
    pub fn finish(self) -> Result<Message, FrameError>
        ensures { MatchResult result (λ m. IsOneOf self.kinds self.bytes (message_seen m)) (λ error. one_refusal self.kinds self.bytes ≡ Some error) }
    {
        let Self { size, stage, .. } = self;
        match stage {
            Stage::Open(_) => Err(FrameError::Short { place: size }),
            Stage::Whole(message) => Ok(message),
        }
    }
}
