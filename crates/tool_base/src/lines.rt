ghost use Rattle.std.specs.Prelude.{◌≡◌, ◌<◌, List, ℕ, length, string_bytes, IfOk};
ghost use Rattle.tool_base.specs.Outputs.{outputs_seen};
ghost use Rattle.tool_base.specs.Puts.{Refused, Finishes};
ghost use Rattle.tool_base.specs.Steps.{scene, write};

use crate::output::{Output, write_outputs};
use crate::status::Status;
use pir_io::{Files, IoFault, Sink};
use std::alloc::AllocError;

/// The line of a command whose file couldn't be read or written.
pub const FILE_FAULT: &[u8] = b"file fault\n";

/// The line of a command for which a call of the net failed.
pub const LINK_FAULT: &[u8] = b"link fault\n";

/// The line of a session that took as many bytes as it may.
pub const INPUT_LIMIT: &[u8] = b"input limit\n";

/// Puts the line of a refusal. The status stays where the put fails.
pub fn refuse<O: Sink>(sink: &mut O, line: &[u8], status: Status) -> Status
    ensures { Refused (O.seen sink.old) (O.seen sink.new) status line.now result }
{
    match sink.put(line) {
        Ok(()) => status,
        Err(IoFault::Failed) => status,
        Err(IoFault::NoMemory) => Status::NoMemory,
    }
}

/// Puts the line of a refusal as it was laid out; where memory was wanting for that, this is the status.
pub fn refuse_by_text<O: Sink>(
    sink: &mut O,
    text: Result<String, AllocError>,
    status: Status,
) -> Status
    ensures { (line : List ℕ) → IfOk text (λ t. string_bytes t ≡ line) → Refused (O.seen sink.old) (O.seen sink.new) status line result }
{
    match text {
        Ok(text) => refuse(sink, text.as_bytes(), status),
        Err(_) => Status::NoMemory,
    }
}

/// Puts the line of a command that did what it promises.
pub fn finish<O: Sink>(sink: &mut O, line: &[u8]) -> Status
    ensures { Finishes (O.seen sink.old) (O.seen sink.new) line.now result }
{
    match sink.put(line) {
        Ok(()) => Status::Done,
        Err(IoFault::Failed) => Status::SinkFault,
        Err(IoFault::NoMemory) => Status::NoMemory,
    }
}

/// Writes outputs in order, and then puts the line of a command that did what it promises.
pub fn write_and_finish<F: Files, O: Sink>(
    files: &mut F,
    sink: &mut O,
    outputs: &[Output<'_>],
    line: &[u8],
) -> Status
    requires { 0 < length outputs.now }
    ensures { write (outputs_seen outputs.now) line.now (scene (F.seen files.old) (F.seen files.new) (O.seen sink.old) (O.seen sink.new)) result }
{
    match write_outputs(files, outputs) {
        Ok(()) => finish(sink, line),
        Err(IoFault::Failed) => refuse(sink, FILE_FAULT, Status::FileFault),
        Err(IoFault::NoMemory) => Status::NoMemory,
    }
}
