ghost use Rattle.std.specs.Prelude.{Some, None, ◌≡◌};
ghost use Rattle.tool_base.specs.declared.status.Status.TheVariants as status;
ghost use Rattle.tool_serve.specs.Serve.{status_of_cause, status_or, EndsWith};
ghost use Rattle.tool_serve.specs.SessionsServed.{ServesNext, ServesAll};

use crate::session_lines::put_session;
use pir_io::{Gate, IoFault, Net, Sink};
use pir_server::{EndCause, Server, SessionEnd};
use std::alloc::Global;
use std::thread::Threads;
use tool_base::{INPUT_LIMIT, LINK_FAULT, Status, refuse};

/// A session takes at most so many bytes: 64 GiB.
const SESSION_LIMIT: u64 = 68_719_476_736;

// Starts the next session, serves it and closes its side; where that fails, this is told nowhere but in the net's count.
fn serve_next<R: Threads + Sync, N: Net, G: Gate>(
    rt: &R,
    server: &mut Server,
    net: &mut N,
    gate: &G,
) -> Result<SessionEnd, IoFault>
    ensures serves { ServesNext server.old.table (N.seen net.old) (N.seen net.new) result }
    ensures server { server.new ≡ server.old }
{
    match net.accept() {
        Ok(()) => {
            let end = server.session(rt, net, SESSION_LIMIT, gate);
            let _closed = net.end();
            Ok(end)
        }
        Err(fault) => Err(fault),
    }
}

// The status that a session gives the command by the way in which it ended.
fn status_of(cause: EndCause) -> Option<Status>
    ensures { result ≡ status_of_cause cause }
{
    match cause {
        EndCause::Done => None,
        EndCause::Refused { .. } => None,
        EndCause::LinkFault => Some(Status::LinkFault),
        EndCause::Limit => Some(Status::InputLimit),
        EndCause::NoMemory => Some(Status::NoMemory),
    }
}

// Ends the command behind its last session, with the first status that a session gave it.
fn end_with<O: Sink>(sink: &mut O, first: Option<Status>) -> Status
    ensures { EndsWith (status_or first status.Done) (O.seen sink.old) (O.seen sink.new) result }
{
    match first {
        None => Status::Done,
        Some(Status::LinkFault) => refuse(sink, LINK_FAULT, Status::LinkFault),
        Some(Status::InputLimit) => refuse(sink, INPUT_LIMIT, Status::InputLimit),
        Some(status) => status,
    }
}

/// Serves so many sessions, one after the other, puts the line of each behind it, and ends the command.
pub(crate) fn serve_sessions<R: Threads + Sync, N: Net, G: Gate, O: Sink>(
    rt: &R,
    alloc: Global,
    server: &mut Server,
    net: &mut N,
    gate: &G,
    sink: &mut O,
    sessions: u32,
) -> Status
    ensures { ServesAll server.old.table sessions (N.seen net.old) (N.seen net.new) (O.seen sink.old) (O.seen sink.new) result }
{
    let mut first = None;
    let mut served = 0;
    'sessions: while served < sessions {
        let end = match serve_next(rt, server, net, gate) {
            Ok(end) => end,
            Err(IoFault::Failed) => return refuse(sink, LINK_FAULT, Status::LinkFault),
            Err(IoFault::NoMemory) => return Status::NoMemory,
        };
        served += 1;
        match put_session(alloc, sink, served, end) {
            Ok(()) => first = first.or(status_of(end.cause)),
            Err(IoFault::Failed) => return Status::SinkFault,
            Err(IoFault::NoMemory) => return Status::NoMemory,
        }
    }
    end_with(sink, first)
}
