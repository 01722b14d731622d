ghost use Rattle.std.specs.Prelude.{IsTrue, ◌≡◌, ◌≢◌, ◌+◌, ◌^◌, ◌<◌, length};
ghost use Rattle.spiral_sets.specs.Sets.{IsSet};
ghost use Rattle.frame_streams.specs.Decoding.{HasRoom, wanting};
ghost use Rattle.pir_server.specs.Talks.{TakesPiece, Finishes};

use super::EndCause;
use super::sending::{give_up, refuse};
use super::talk::{Piece, Talk};
use pir_io::{IoFault, Link};
use pir_wire::FeedError;
use spiral_sets::ParamSet;
use std::alloc::Global;

/// Reads a piece of the input and feeds it. An error says why the session ends.
pub(crate) fn take_piece<L: Link>(
    alloc: Global,
    link: &mut L,
    set: &ParamSet,
    talk: &mut Talk,
    piece: &mut [u8],
) -> Result<Piece, EndCause>
    requires open { IsTrue (L.seen link.old).is_open }
    requires known { IsSet set.now }
    requires room { HasRoom talk.old.decoder (length piece.old) }
    requires some { 0 < length piece.old }
    requires fits { talk.old.taken + length piece.old < 2 ^ 64 }
    ensures { TakesPiece set.now (L.seen link.old) (L.seen link.new) talk.old talk.new (length piece.old) result }
{
    match link.read(piece) {
        Ok(0) => Ok(Piece::End),
        Ok(count) => match talk.feed(&piece[..count]) {
            Ok(()) => Ok(Piece::Fed),
            Err(FeedError::Frame(error)) => Ok(Piece::Bad(error)),
            Err(FeedError::NoMemory) => Err(give_up(alloc, link, set)),
        },
        Err(IoFault::Failed) => Err(EndCause::LinkFault),
        Err(IoFault::NoMemory) => Err(give_up(alloc, link, set)),
    }
}

/// Ends a session whose input has ended.
pub(crate) fn finish<L: Link>(alloc: Global, link: &mut L, set: &ParamSet, talk: &Talk) -> EndCause
    requires open { IsTrue (L.seen link.old).is_open }
    requires known { IsSet set.now }
    requires reads { talk.now.decoder.condition ≢ wanting }
    ensures { Finishes set.now talk.now.decoder (L.seen link.old) (L.seen link.new) result }
{
    match talk.decoder.finish() {
        Ok(()) => EndCause::Done,
        Err(error) => refuse(alloc, link, set, error.code(), error.place()),
    }
}
