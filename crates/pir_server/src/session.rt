ghost use Rattle.std.specs.Prelude.{IsTrue, false, ◌≡◌, ◌≤◌, ◌<◌, ◌^◌, ◌+◌, length, vec_len, IfOk};
ghost use Rattle.pir_server.specs.Sessions.{SessionEnds};
ghost use Rattle.pir_server.specs.Talks.{IsFresh, IsTalk, Waits, Turns};

mod reading;
mod sending;
mod serving;
mod talk;

use crate::server::Server;
use no_memory::NoMemory;
use pir_io::{Gate, Link, PIECE};
use reading::{finish, take_piece};
use sending::{give_up, refuse};
use serving::serve_ready;
use std::alloc::{AllocError, Global};
use std::thread::Threads;
use talk::{Piece, Talk};

/// How a session ended.
#[derive(Clone, Copy, Debug, PartialEq, Eq)]
pub struct SessionEnd {
    /// how many replies were written
    pub answered: u64,
    /// how many bytes were read
    pub taken: u64,
    pub cause: EndCause,
}

/// Why a session ended.
#[derive(Clone, Copy, Debug, PartialEq, Eq)]
pub enum EndCause {
    /// The input ended behind a whole frame, or without any.
    Done,
    /// The input was refused, with this code and place.
    Refused { code: u8, at: u64 },
    /// A call of the link failed.
    LinkFault,
    /// So many bytes were read as a session may take.
    Limit,
    /// Memory was wanting.
    NoMemory,
}

/// A buffer for one piece.
fn piece_buffer(alloc: Global) -> Result<Vec<u8>, AllocError>
    ensures { IfOk result (λ buffer. vec_len buffer ≡ PIECE) }
{
    vec![in alloc; 0u8; PIECE]
}

/// What a session starts with: nothing was read, and no keys are at hand.
fn begin(alloc: Global) -> Result<(Talk, Vec<u8>), NoMemory>
    ensures { IfOk result (λ both. IsFresh both.0 × (vec_len both.1 ≡ PIECE)) }
{
    let buffer = piece_buffer(alloc)?;
    Ok((Talk::new(alloc)?, buffer))
}

/// Reads a piece, and serves the messages that are whole by then. An error says why the session ends.
fn turn<R: Threads + Sync, L: Link, G: Gate>(
    server: &mut Server,
    rt: &R,
    link: &mut L,
    talk: &mut Talk,
    piece: &mut [u8],
    gate: &G,
) -> Result<(), EndCause>
    requires open { IsTrue (L.seen link.old).is_open }
    requires talk { IsTalk server.old.table talk.old }
    requires waits { Waits talk.old }
    requires some { 0 < length piece.old }
    requires fits { talk.old.taken + length piece.old < 2 ^ 64 }
    ensures turns { Turns server.old.table (L.seen link.old) (L.seen link.new) talk.old talk.new (length piece.old) result }
    ensures server { server.new ≡ server.old }
{
    let (alloc, set) = server.context();
    match take_piece(alloc, link, &set, talk, piece)? {
        Piece::Fed => serve_ready(server, rt, link, talk, gate),
        Piece::Bad(error) => {
            serve_ready(server, rt, link, talk, gate)?;
            Err(refuse(alloc, link, &set, error.code(), error.place()))
        }
        Piece::End => Err(finish(alloc, link, &set, talk)),
    }
}

impl Server {
    /// Reads messages from a link and answers the queries among them, until the input ends or is refused, or `limit` bytes were read.
    /// It begins without keys; a Setup's keys serve the queries behind it. Pieces of at most 65,536 bytes are read, and each message
    /// is served as soon as it is whole. A refusal is told the peer in a Refuse frame: that of the first message that isn't served
    /// (code 11 where it is of another set, 12 where it is a query before any setup in a set with keys), or that of the frame behind
    /// the messages; where memory was wanting, one of code 13 and place 0 is tried. The link's writing side isn't closed.
    pub fn session<R: Threads + Sync, L: Link, G: Gate>(
        &mut self,
        rt: &R,
        link: &mut L,
        limit: u64,
        gate: &G,
    ) -> SessionEnd
        requires open { IsTrue (L.seen link.old).is_open }
        requires fresh { IsTrue (L.seen link.old).tells → (L.seen link.old).ended ≡ false }
        ensures ends { SessionEnds self.old.table limit (L.seen link.old) (L.seen link.new) result }
        ensures server { self.new ≡ self.old }
    {
        let (alloc, set) = self.context();
        let (mut talk, mut buffer) = match begin(alloc) {
            Ok(begun) => begun,
            Err(_) => return Talk::unbegun(give_up(alloc, link, &set)),
        };
        'pieces: while talk.taken < limit {
            let room = (limit - talk.taken).min(PIECE as u64) as usize;
            if let Err(cause) = turn(self, rt, link, &mut talk, &mut buffer[..room], gate) {
                return talk.end(cause);
            }
        }
        talk.end(EndCause::Limit)
    }
}
