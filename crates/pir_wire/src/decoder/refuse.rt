ghost use Rattle.std.specs.Prelude.{◌≡◌, ◌<◌, ◌≤◌, [], length, nat_eq, IfOk};
ghost use Rattle.spiral_sets.specs.Sets.{IsSet};
ghost use Rattle.frame_headers.specs.declared.kind.FrameKind.TheVariants.{Refuse};
ghost use Rattle.frame_headers.specs.Kinds.{body_len_of};
ghost use Rattle.spiral_frames.specs.Frames.{kind_of};
ghost use Rattle.pir_wire.specs.Bodies.{IsBodyOf};
ghost use Rattle.pir_wire.specs.Messages.{message_seen};
ghost use Rattle.pir_wire.specs.Growing.{Grows};

use super::body::GrowError;
use crate::message::Message;
use frame_headers::number_at;
use no_memory::NoMemory;
use spiral_sets::ParamSet;
use std::alloc::Global;
use std::marker::Model;

/// How many bytes the body of a Refuse has: the code, and the place in 8.
const LEN: usize = 9;

/// The body of a Refuse frame in the making: the code and the place of a refusal. It keeps the bytes that have come, at most 9; none of
/// them can be wrong.
#[derive(Drop)]
pub(crate) struct RefuseRead {
    set: ParamSet,
    bytes: Vec<u8>,
}

impl Model for RefuseRead {
    ghost use Rattle.frame_headers.specs.declared.kind.FrameKind.TheVariants.{Refuse};
    ghost use Rattle.pir_wire.specs.Growing.{BodySeen};
    ghost use Rattle.pir_wire.specs.BodyParts.{IsRefusePart};

    ghost Value = { BodySeen };

    ghost view = { λ r. record { kind = Refuse; set = r.set; bytes = r.bytes.items } };

    ghost invariant = { λ r. IsRefusePart r.set r.bytes.items };
}

/// The refusal of a whole body.
fn refusal_of(set: &ParamSet, bytes: &[u8]) -> Message
    requires known { IsSet set.now }
    requires whole { length bytes.now ≡ 9 }
    ensures body { IsBodyOf set.now bytes.now (message_seen result) }
    ensures kind { kind_of (message_seen result) ≡ Refuse }
{
    Message::Refuse {
        set: *set,
        code: bytes[0],
        at: number_at(bytes, 1),
    }
}

impl RefuseRead {
    /// Nothing of the body has come.
    pub(crate) fn begin(alloc: Global, set: &ParamSet) -> Self
        requires { IsSet set.now }
        ensures { result ≡ record { kind = Refuse; set = set.now; bytes = [] } }
    {
        RefuseRead {
            set: *set,
            bytes: Vec::new(alloc),
        }
    }

    /// Takes bytes from the front of a piece: at least one, and none behind the body's end.
    pub(crate) fn grow(&mut self, piece: &[u8]) -> Result<usize, GrowError>
        requires some { 0 < length piece.now }
        requires unfinished { length self.old.bytes < body_len_of self.old.kind self.old.set }
        ensures { Grows self.old self.new piece.now result }
    {
        let count = piece.len().min(LEN - self.bytes.len());
        self.bytes.extend_from_slice(&piece[..count])?;
        Ok(count)
    }

    /// The message, where the body is whole.
    pub(crate) fn finish(self) -> Result<Message, NoMemory>
        requires { length self.bytes ≡ body_len_of self.kind self.set }
        ensures { IfOk result (λ m. IsBodyOf self.set self.bytes (message_seen m) × (kind_of (message_seen m) ≡ self.kind)) }
    {
        Ok(refusal_of(&self.set, &self.bytes))
    }

    /// How many bytes of the input are kept that aren't numbers yet.
    pub(crate) fn held(&self) -> usize
        ensures { result ≤ 14336 }
    {
        self.bytes.len()
    }

    /// Whether all of the body has come.
    pub(crate) fn is_whole(&self) -> bool
        ensures { result ≡ nat_eq (length self.now.bytes) (body_len_of self.now.kind self.now.set) }
    {
        self.bytes.len() == LEN
    }
}
