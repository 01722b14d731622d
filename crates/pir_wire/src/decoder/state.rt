ghost use Rattle.std.specs.Prelude.{◌≡◌, ◌<◌, ◌≤◌, [], length, take, nat_eq, slice_index, All, IfOk};
ghost use Rattle.spiral_sets.specs.Sets.{IsSet};
ghost use Rattle.spiral_sets.specs.Counts.{state_len};
ghost use Rattle.frame_headers.specs.declared.kind.FrameKind.TheVariants.{State};
ghost use Rattle.frame_headers.specs.Kinds.{body_len_of};
ghost use Rattle.spiral_frames.specs.Frames.{kind_of, state_message};
ghost use Rattle.pir_wire.specs.Bodies.{IsBodyOf};
ghost use Rattle.pir_wire.specs.BodyParts.{IsStatePart, Takes};
ghost use Rattle.pir_wire.specs.Messages.{message_seen};
ghost use Rattle.pir_wire.specs.Growing.{Grows};

use super::body::GrowError;
use super::in_frame::place_in_frame;
use crate::decoding::FramedMessage;
use crate::message::Message;
use frame_headers::{FrameError, number_at};
use modulus_switch::ClientState;
use no_memory::NoMemory;
use spiral_sets::ParamSet;
use std::alloc::Global;
use std::marker::Model;

/// How many bytes the index has.
const INDEX: usize = 8;

/// The largest byte of a secret.
const LARGEST: u8 = 2;

/// The body of a State frame in the making: the index in 8 bytes, and a byte for each number of the secret, the number plus 1. It keeps the
/// bytes that have come, at most 8 + 4 * 2048; each is refused as soon as it is wrong.
#[derive(Drop)]
pub(crate) struct StateRead {
    alloc: Global,
    set: ParamSet,
    bytes: Vec<u8>,
}

impl Model for StateRead {
    ghost use Rattle.frame_headers.specs.declared.kind.FrameKind.TheVariants.{State};
    ghost use Rattle.pir_wire.specs.Growing.{BodySeen};
    ghost use Rattle.pir_wire.specs.BodyParts.{IsStatePart};

    ghost Value = { BodySeen };

    ghost view = { λ s. record { kind = State; set = s.set; bytes = s.bytes.items } };

    ghost invariant = { λ s. IsStatePart s.set s.bytes.items };
}

/// Takes bytes of the index from the front of a piece. An index that is that of no record is refused by its eighth byte.
fn take_index(set: &ParamSet, bytes: &mut Vec<u8>, piece: &[u8]) -> Result<usize, GrowError>
    requires some { 0 < length piece.now }
    requires part { IsStatePart set.now bytes.old.items }
    requires unfinished { length bytes.old.items < 8 }
    ensures { Takes State (IsStatePart set.now) set.now bytes.old.items bytes.new.items piece.now result }
{
    let had = bytes.len();
    let count = piece.len().min(INDEX - had);
    bytes.extend_from_slice(&piece[..count])?;
    if bytes.len() < INDEX {
        return Ok(count);
    }
    let value = number_at(bytes, 0);
    let bound = set.max_records();
    if value >= bound {
        bytes.truncate(had);
        let place = place_in_frame(set, 0);
        return Err(GrowError::Refused(FrameError::Residue {
            place,
            value,
            bound,
        }));
    }
    Ok(count)
}

/// How many bytes stand before the first one above 2.
fn small_count(bytes: &[u8]) -> usize
    ensures within { result ≤ length bytes.now }
    ensures small { All (λ b. b ≤ 2) (take result bytes.now) }
    ensures next { result < length bytes.now → 2 < slice_index bytes.now result }
{
    for (i, byte) in bytes.iter().enumerate() {
        if *byte > LARGEST {
            return i;
        }
    }
    bytes.len()
}

/// Takes bytes of the secret from the front of a piece, up to one above 2, which is refused where it comes first.
fn take_secret(set: &ParamSet, bytes: &mut Vec<u8>, piece: &[u8]) -> Result<usize, GrowError>
    requires some { 0 < length piece.now }
    requires part { IsStatePart set.now bytes.old.items }
    requires behind { 8 ≤ length bytes.old.items }
    requires unfinished { length bytes.old.items < state_len set.now }
    ensures { Takes State (IsStatePart set.now) set.now bytes.old.items bytes.new.items piece.now result }
{
    let had = bytes.len();
    let wanted = piece.len().min(set.state_len() as usize - had);
    let count = small_count(&piece[..wanted]);
    if count == 0 {
        return Err(GrowError::Refused(FrameError::Residue {
            place: place_in_frame(set, had),
            value: u64::from(piece[0]),
            bound: 3,
        }));
    }
    bytes.extend_from_slice(&piece[..count])?;
    Ok(count)
}

/// The state of a whole body.
fn state_of(alloc: Global, set: &ParamSet, bytes: &[u8]) -> Result<ClientState, NoMemory>
    requires part { IsStatePart set.now bytes.now }
    requires whole { length bytes.now ≡ state_len set.now }
    ensures { IfOk result (λ state. IsBodyOf set.now bytes.now (state_message state)) }
{
    let state = ClientState::from_body(alloc, set, bytes)?;
    Ok(state.unwrap())
}

impl StateRead {
    /// Nothing of the body has come.
    pub(crate) fn begin(alloc: Global, set: &ParamSet) -> Self
        requires { IsSet set.now }
        ensures { result ≡ record { kind = State; set = set.now; bytes = [] } }
    {
        StateRead {
            alloc,
            set: *set,
            bytes: Vec::new(alloc),
        }
    }

    /// Takes bytes from the front of a piece: at least one, and none behind the body's end.
    pub(crate) fn grow(&mut self, piece: &[u8]) -> Result<usize, GrowError>
        requires some { 0 < length piece.now }
        requires unfinished { length self.old.bytes < body_len_of self.old.kind self.old.set }
        ensures { Grows self.old self.new piece.now result }
    {
        if self.bytes.len() < INDEX {
            take_index(&self.set, &mut self.bytes, piece)
        } else {
            take_secret(&self.set, &mut self.bytes, piece)
        }
    }

    /// The message, where the body is whole.
    pub(crate) fn finish(self) -> Result<Message, NoMemory>
        requires { length self.bytes ≡ body_len_of self.kind self.set }
        ensures { IfOk result (λ m. IsBodyOf self.set self.bytes (message_seen m) × (kind_of (message_seen m) ≡ self.kind)) }
    {
        let state = state_of(self.alloc, &self.set, &self.bytes)?;
        Ok(Message::State(state))
    }

    /// How many bytes of the input are kept that aren't numbers yet.
    pub(crate) fn held(&self) -> usize
        ensures { result ≤ 14336 }
    {
        self.bytes.len()
    }

    /// Whether all of the body has come.
    pub(crate) fn is_whole(&self) -> bool
        ensures { result ≡ nat_eq (length self.now.bytes) (body_len_of self.now.kind self.now.set) }
    {
        self.bytes.len() as u64 == self.set.state_len()
    }
}
