//! The body of a Setup or a Query in the making.

ghost use Rattle.std.specs.Prelude.{◌≡◌, ◌<◌, ◌≤◌, [], length, nat_eq, IfOk, MatchResult, Ok, Err};
ghost use Rattle.spiral_sets.specs.Sets.{IsSet};
ghost use Rattle.frame_headers.specs.Kinds.{body_len_of};
ghost use Rattle.spiral_frames.specs.Frames.{kind_of};
ghost use Rattle.pir_wire.specs.Bodies.{IsBodyOf};
ghost use Rattle.pir_wire.specs.Messages.{message_seen};
ghost use Rattle.pir_wire.specs.Growing.{Grows};
ghost use Rattle.pir_wire.specs.CipherParts.{kind_by};

use super::body::GrowError;
use super::parts::{Parts, RESIDUE};
use crate::message::Message;
use frame_headers::FrameKind;
use no_memory::NoMemory;
use regev_code::{KeyBody, QueryBody};
use spiral_sets::ParamSet;
use std::alloc::Global;
use std::marker::Model;
use std::mem;

/// The kind of a frame whose body is ciphertexts.
fn kind_of_body(is_setup: bool) -> FrameKind
    ensures { result ≡ kind_by is_setup }
{
    if is_setup {
        FrameKind::Setup
    } else {
        FrameKind::Query
    }
}

/// The body of a Setup or a Query of which not all has come: residues are numbers as soon as they are whole.
pub(crate) struct CiphersRead {
    parts: Parts,
    /// bytes of a residue that isn't whole
    few: Vec<u8>,
}

impl Model for CiphersRead {
    ghost use Rattle.pir_wire.specs.Growing.{BodySeen};
    ghost use Rattle.pir_wire.specs.CipherParts.{made, body_seen_of, IsKept};

    ghost Value = { BodySeen };

    ghost view = { λ b. body_seen_of (made b.parts) b.few.items };

    ghost invariant = { λ b. IsKept (made b.parts) b.few.items };
}

/// By hand: a caller's proof then takes one step for it, and not one for each of its lists.
impl Drop for CiphersRead {
    fn drop(self) {
        let Self { parts: _, few: _ } = self;
    }
}

impl CiphersRead {
    /// Nothing of the body has come, of a Setup or else of a Query.
    pub(crate) fn begin(alloc: Global, set: &ParamSet, is_setup: bool) -> CiphersRead
        requires { IsSet set.now }
        ensures { result ≡ record { kind = kind_by is_setup; set = set.now; bytes = [] } }
    {
        CiphersRead {
            parts: Parts::none(alloc, set, is_setup),
            few: Vec::new(alloc),
        }
    }

    /// Takes bytes from the front of a piece: at least one, and none behind the body's end.
    pub(crate) fn grow(&mut self, piece: &[u8]) -> Result<usize, GrowError>
        requires some { 0 < length piece.now }
        requires unfinished { length self.old.bytes < body_len_of self.old.kind self.old.set }
        ensures { Grows self.old self.new piece.now result }
    {
        let fresh = self.afresh();
        let at_hand = mem::replace(self, fresh);
        let (grown, taken) = at_hand.grown(piece)?;
        *self = grown;
        Ok(taken)
    }

    /// The same body, of which nothing has come.
    fn afresh(&self) -> CiphersRead {
        let parts = &self.parts;
        CiphersRead::begin(parts.alloc, &parts.set, parts.is_setup)
    }

    /// What it grows to by bytes of the front of a piece, and how many these are.
    fn grown(self, piece: &[u8]) -> Result<(CiphersRead, usize), GrowError>
        requires some { 0 < length piece.now }
        requires unfinished { length self.bytes < body_len_of self.kind self.set }
        ensures { MatchResult result (λ r. Grows self r.0 piece.now (Ok r.1)) (λ e. Grows self self piece.now (Err e)) }
    {
        let CiphersRead { parts, few } = self;
        if piece.len() < RESIDUE || !few.is_empty() {
            let (parts, few, taken) = parts.with_part(few, piece)?;
            return Ok((CiphersRead { parts, few }, taken));
        }
        let (parts, taken) = parts.with_residues(piece)?;
        Ok((CiphersRead { parts, few }, taken))
    }

    /// The message, where the body is whole.
    pub(crate) fn finish(self) -> Result<Message, NoMemory>
        requires { length self.bytes ≡ body_len_of self.kind self.set }
        ensures { IfOk result (λ m. IsBodyOf self.set self.bytes (message_seen m) × (kind_of (message_seen m) ≡ self.kind)) }
    {
        let CiphersRead { parts, few: _ } = self;
        let (is_setup, set, ciphers) = parts.into_ciphers();
        if is_setup {
            return Ok(Message::Setup(KeyBody { set, ciphers }));
        }
        Ok(Message::Query(QueryBody { set, ciphers }))
    }

    /// How many bytes of the input are kept that aren't numbers yet.
    pub(crate) fn held(&self) -> usize
        ensures { result ≤ 14336 }
    {
        self.few.len()
    }

    /// Whether all of the body has come.
    pub(crate) fn is_whole(&self) -> bool
        ensures { result ≡ nat_eq (length self.now.bytes) (body_len_of self.now.kind self.now.set) }
    {
        let parts = &self.parts;
        let len = kind_of_body(parts.is_setup).body_len(&parts.set);
        (RESIDUE * parts.count + self.few.len()) as u64 == len
    }
}
