ghost use Rattle.std.specs.Prelude.{◌≡◌, ◌+◌, ◌^◌, ◌<◌, length, IfOk};
ghost use Rattle.frame_streams.specs.Decoding.{HasRoom, decoded};
ghost use Rattle.frame_streams.specs.StreamLaws.{AreBytes};
ghost use Rattle.pir_wire.specs.Feeding.{FeedGives};
ghost use Rattle.pir_server.specs.Talks.{IsFresh};

use super::{EndCause, SessionEnd};
use frame_headers::FrameError;
use no_memory::NoMemory;
use pir_wire::{Decoder, FeedError};
use regev_code::EvalKeys;
use std::alloc::Global;

/// The kinds of frames that a server takes, as bits: Setup and Query.
const SERVER_KINDS: u8 = 6;

/// What a session keeps from piece to piece.
pub(crate) struct Talk {
    pub(crate) decoder: Decoder,
    /// those of the last setup
    pub(crate) keys: Option<EvalKeys>,
    /// how many replies were written
    pub(crate) answered: u64,
    /// how many bytes were read
    pub(crate) taken: u64,
}

/// By hand: a caller's proof then takes one step for it, and not one for each of its lists.
impl Drop for Talk {
    fn drop(self) {
        let Self {
            decoder: _,
            keys: _,
            answered: _,
            taken: _,
        } = self;
    }
}

/// What became of a piece.
#[derive(Clone, Copy)]
pub(crate) enum Piece {
    /// It was fed.
    Fed,
    /// It was fed, and the input is refused.
    Bad(FrameError),
    /// There is none: the input has ended.
    End,
}

impl Talk {
    /// Nothing was read yet.
    pub(crate) fn new(alloc: Global) -> Result<Talk, NoMemory>
        ensures { IfOk result IsFresh }
    {
        Ok(Talk {
            decoder: Decoder::new(alloc, SERVER_KINDS)?,
            keys: None,
            answered: 0,
            taken: 0,
        })
    }

    /// Feeds a piece of the input.
    pub(crate) fn feed(&mut self, piece: &[u8]) -> Result<(), FeedError>
        requires room { HasRoom self.old.decoder (length piece.now) }
        requires fits { self.old.taken + length piece.now < 2 ^ 64 }
        ensures below { AreBytes piece.now }
        ensures gives { FeedGives self.old.decoder (decoded self.old.decoder piece.now) self.new.decoder result }
        ensures rest { self.new ≡ record self.old { decoder = self.new.decoder; taken = self.old.taken + length piece.now } }
    {
        self.taken += piece.len() as u64;
        self.decoder.feed(piece)
    }

    /// The end of the session, for a cause.
    pub(crate) fn end(&self, cause: EndCause) -> SessionEnd
        ensures { result ≡ record { answered = self.now.answered; taken = self.now.taken; cause = cause } }
    {
        SessionEnd {
            answered: self.answered,
            taken: self.taken,
            cause,
        }
    }

    /// The end of a session that hasn't begun.
    pub(crate) fn unbegun(cause: EndCause) -> SessionEnd
        ensures { result ≡ record { answered = 0; taken = 0; cause = cause } }
    {
        SessionEnd {
            answered: 0,
            taken: 0,
            cause,
        }
    }
}
