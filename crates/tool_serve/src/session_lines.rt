ghost use Rattle.std.specs.Prelude.{◌≡◌, IfOk, string_bytes};
ghost use Rattle.pir_io.specs.Sink.{Puts};
ghost use Rattle.tool_serve.specs.Serve.{session_line};

use pir_io::{IoFault, Sink};
use pir_server::{EndCause, SessionEnd};
use std::alloc::{AllocError, Global};

// The line of a session of that number, counted from 1: how many replies were written in it, and how it ended.
fn session_text(alloc: Global, number: u32, end: SessionEnd) -> Result<String, AllocError>
    ensures { IfOk result (λ text. string_bytes text ≡ session_line number end) }
{
    let answered = end.answered;
    match end.cause {
        EndCause::Done => format!(in alloc; "session {number}: {answered} answered, done\n"),
        EndCause::Refused { code, at } => {
            format!(in alloc; "session {number}: {answered} answered, refused {code} at {at}\n")
        }
        EndCause::LinkFault => {
            format!(in alloc; "session {number}: {answered} answered, link fault\n")
        }
        EndCause::Limit => format!(in alloc; "session {number}: {answered} answered, limit\n"),
        EndCause::NoMemory => {
            format!(in alloc; "session {number}: {answered} answered, no memory\n")
        }
    }
}

/// Puts the line of a session of that number, counted from 1.
pub(crate) fn put_session<O: Sink>(
    alloc: Global,
    sink: &mut O,
    number: u32,
    end: SessionEnd,
) -> Result<(), IoFault>
    ensures { Puts (O.seen sink.old) (O.seen sink.new) (session_line number end) result }
{
    let Ok(text) = session_text(alloc, number, end) else {
        return Err(IoFault::NoMemory);
    };
    sink.put(text.as_bytes())
}
