ghost use Rattle.std.specs.Prelude.{◌≡◌, ◌≢◌, ◌<◌, ◌≤◌, [], length, nat_eq, IfOk};
ghost use Rattle.spiral_sets.specs.Sets.{IsSet};
ghost use Rattle.frame_headers.specs.declared.kind.FrameKind.TheVariants.{Database};
ghost use Rattle.frame_headers.specs.Kinds.{body_len_of};
ghost use Rattle.spiral_frames.specs.Frames.{kind_of};
ghost use Rattle.pir_wire.specs.Bodies.{IsBodyOf};
ghost use Rattle.pir_wire.specs.Messages.{message_seen};
ghost use Rattle.pir_wire.specs.Growing.{Grows};
ghost use Rattle.pir_wire.specs.Making.{body_seen};

use super::ciphers::CiphersRead;
use super::refuse::RefuseRead;
use super::reply::ReplyRead;
use super::state::StateRead;
use crate::message::Message;
use frame_headers::{FrameError, FrameKind};
use no_memory::NoMemory;
use spiral_sets::ParamSet;
use std::alloc::{AllocError, AllocFailed, Global};

/// Why a body takes no more.
#[derive(Clone, Copy, Debug, PartialEq, Eq)]
pub(crate) enum GrowError {
    /// A byte refuses it; the place is counted from the frame's first byte.
    Refused(FrameError),
    /// Memory was wanting.
    NoMemory,
}

impl From<NoMemory> for GrowError {
    ghost use Rattle.std.specs.Prelude.{◌≡◌};
    ghost use Rattle.pir_wire.specs.declared.decoder.body.GrowError.TheVariants as wrong;

    ghost from_gives = { λ _ e. e ≡ wrong.NoMemory };

    fn from(_: NoMemory) -> Self {
        GrowError::NoMemory
    }
}

impl From<AllocError> for GrowError {
    ghost use Rattle.std.specs.Prelude.{◌≡◌};
    ghost use Rattle.pir_wire.specs.declared.decoder.body.GrowError.TheVariants as wrong;

    ghost from_gives = { λ _ e. e ≡ wrong.NoMemory };

    fn from(_: AllocError) -> Self {
        GrowError::NoMemory
    }
}

impl<T: Drop> From<AllocFailed<T>> for GrowError {
    ghost use Rattle.std.specs.Prelude.{◌≡◌};
    ghost use Rattle.pir_wire.specs.declared.decoder.body.GrowError.TheVariants as wrong;

    ghost from_gives = { λ _ e. e ≡ wrong.NoMemory };

    fn from(_: AllocFailed<T>) -> Self {
        GrowError::NoMemory
    }
}

/// The body of a frame in the making, by its kind. Contracts see it by `body_seen`.
#[derive(Drop)]
pub(crate) enum Body {
    /// The keys of a client.
    Setup(CiphersRead),
    /// A query of a client.
    Query(CiphersRead),
    /// A reply of a server.
    Reply(ReplyRead),
    /// A server's refusal.
    Refuse(RefuseRead),
    /// What a client keeps of its query.
    State(StateRead),
}

impl Body {
    /// Nothing of the body has come.
    pub(crate) fn begin(alloc: Global, kind: FrameKind, set: &ParamSet) -> Self
        requires known { IsSet set.now }
        requires other { kind ≢ Database }
        ensures { body_seen result ≡ record { kind = kind; set = set.now; bytes = [] } }
    {
        match kind {
            FrameKind::Setup => Body::Setup(CiphersRead::begin(alloc, set, true)),
            FrameKind::Query => Body::Query(CiphersRead::begin(alloc, set, false)),
            FrameKind::Reply => Body::Reply(ReplyRead::begin(alloc, set)),
            FrameKind::Refuse => Body::Refuse(RefuseRead::begin(alloc, set)),
            FrameKind::State | FrameKind::Database => Body::State(StateRead::begin(alloc, set)),
        }
    }

    /// Takes bytes from the front of a piece: at least one, and none behind the body's end.
    pub(crate) fn grow(&mut self, piece: &[u8]) -> Result<usize, GrowError>
        requires some { 0 < length piece.now }
        requires unfinished { length (body_seen self.old).bytes < body_len_of (body_seen self.old).kind (body_seen self.old).set }
        ensures { Grows (body_seen self.old) (body_seen self.new) piece.now result }
    {
        match self {
            Body::Setup(body) => body.grow(piece),
            Body::Query(body) => body.grow(piece),
            Body::Reply(body) => body.grow(piece),
            Body::Refuse(body) => body.grow(piece),
            Body::State(body) => body.grow(piece),
        }
    }

    /// The message, where the body is whole.
    pub(crate) fn finish(self) -> Result<Message, NoMemory>
        requires { length (body_seen self).bytes ≡ body_len_of (body_seen self).kind (body_seen self).set }
        ensures { IfOk result (λ m. IsBodyOf (body_seen self).set (body_seen self).bytes (message_seen m) × (kind_of (message_seen m) ≡ (body_seen self).kind)) }
    {
        match self {
            Body::Setup(body) => body.finish(),
            Body::Query(body) => body.finish(),
            Body::Reply(body) => body.finish(),
            Body::Refuse(body) => body.finish(),
            Body::State(body) => body.finish(),
        }
    }

    /// How many bytes of the input are kept that aren't numbers yet.
    pub(crate) fn held(&self) -> usize
        ensures { result ≤ 14336 }
    {
        match self {
            Body::Setup(body) => body.held(),
            Body::Query(body) => body.held(),
            Body::Reply(body) => body.held(),
            Body::Refuse(body) => body.held(),
            Body::State(body) => body.held(),
        }
    }

    /// Whether all of the body has come.
    pub(crate) fn is_whole(&self) -> bool
        ensures { result ≡ nat_eq (length (body_seen self.now).bytes) (body_len_of (body_seen self.now).kind (body_seen self.now).set) }
    {
        match self {
            Body::Setup(body) => body.is_whole(),
            Body::Query(body) => body.is_whole(),
            Body::Reply(body) => body.is_whole(),
            Body::Refuse(body) => body.is_whole(),
            Body::State(body) => body.is_whole(),
        }
    }
}
