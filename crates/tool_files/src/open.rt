ghost use Rattle.spiral_model.specs.Replies.{IsState, IsReply};
ghost use Rattle.tool_base.specs.Outputs.{one};
ghost use Rattle.tool_base.specs.Steps.{scene, write};
ghost use Rattle.tool_base.specs.Texts.{record_line};
ghost use Rattle.tool_base.specs.Words.{open_seen};
ghost use Rattle.tool_files.specs.Open.{opens, opens_reply};

use crate::frames::{read_answer, read_state};
use crate::peer_answer::PeerAnswer;
use crate::refusals::{refuse_input, refuse_set};
use modulus_switch::{ClientState, Reply};
use pir_client::OpenError;
use pir_io::{Files, Sink};
use std::alloc::Global;
use tool_base::{
    Open, Output, Status, absent_text, peer_refused_text, record_text, refuse_by_text,
    write_and_finish,
};

/// Opens the reply in one file by the state in another, and writes the record to a third.
pub fn open_files<F: Files, O: Sink>(
    alloc: Global,
    files: &mut F,
    sink: &mut O,
    opening: &Open<'_>,
) -> Status
    ensures { opens (open_seen opening.now) (scene (F.seen files.old) (F.seen files.new) (O.seen sink.old) (O.seen sink.new)) result }
{
    let state = match read_state(alloc, files, opening.state) {
        Ok(state) => state,
        Err(error) => return refuse_input(alloc, sink, 1, error),
    };
    match read_answer(alloc, files, opening.reply) {
        Ok(PeerAnswer::Reply(reply)) => {
            open_reply(alloc, files, sink, &state, &reply, opening.out)
        }
        Ok(PeerAnswer::Refuse { code, place }) => refuse_by_text(
            sink,
            peer_refused_text(alloc, code, place),
            Status::PeerRefused,
        ),
        Err(error) => refuse_input(alloc, sink, 2, error),
    }
}

/// Opens a reply by the state, and writes the record.
pub fn open_reply<F: Files, O: Sink>(
    alloc: Global,
    files: &mut F,
    sink: &mut O,
    state: &ClientState,
    reply: &Reply,
    out: &str,
) -> Status
    requires state { IsState state.now }
    requires reply { IsReply reply.now }
    ensures { opens_reply out.now state.now reply.now (scene (F.seen files.old) (F.seen files.new) (O.seen sink.old) (O.seen sink.new)) result }
{
    match pir_client::open(alloc, state, reply) {
        Ok(record) => write_record(alloc, files, sink, &record, reply.length(), out),
        Err(OpenError::WrongSet { expected, found }) => {
            refuse_set(alloc, sink, &expected, &found)
        }
        Err(OpenError::Absent { index, count }) => {
            refuse_by_text(sink, absent_text(alloc, index, count), Status::Absent)
        }
        Err(OpenError::NoMemory) => Status::NoMemory,
    }
}

// Writes an opened record of that length and puts its line.
fn write_record<F: Files, O: Sink>(
    alloc: Global,
    files: &mut F,
    sink: &mut O,
    bytes: &[u8],
    length: u32,
    out: &str,
) -> Status
    ensures { write (one out.now bytes.now) (record_line length) (scene (F.seen files.old) (F.seen files.new) (O.seen sink.old) (O.seen sink.new)) result }
{
    let Ok(text) = record_text(alloc, length) else {
        return Status::NoMemory;
    };
    write_and_finish(files, sink, &[Output { name: out, bytes }], text.as_bytes())
}
