ghost use Rattle.std.specs.Prelude.{◌≡◌, ◌++◌, ◌≤◌, ◌<◌, ◌^◌, List, ℕ, length, IfOk};
ghost use Rattle.spiral_model.specs.Databases.{record_count};
ghost use Rattle.spiral_frames.specs.Frames.{reply_message};
ghost use Rattle.frame_streams.specs.OneFrames.{IsOneOf};
ghost use Rattle.frame_streams.specs.Serving.{serve_bytes};
ghost use Rattle.session_laws.specs.Exchanges.{client_kinds};
ghost use Rattle.pir_client.specs.Asks.{IsAsked};
ghost use Rattle.pir_wire.specs.Messages.{message_seen};
ghost use Rattle.tool_base.specs.Steps.{scene, write};
ghost use Rattle.tool_base.specs.Texts.{record_line};
ghost use Rattle.tool_base.specs.Words.{local_seen};
ghost use Rattle.tool_local.specs.Local.{locals};
ghost use Rattle.tool_local.specs.LocalParts.{Finds, found_outputs, local_present};

use crate::buffer_link::BufferLink;
use modulus_switch::Reply;
use no_memory::NoMemory;
use pir_client::{AskError, Asked};
use pir_io::{Files, Gate, Sink};
use pir_server::{EndCause, Server};
use pir_wire::{Message, OneFrame};
use record_store::{Database, read_db};
use std::alloc::Global;
use std::thread::Threads;
use tool_base::{
    Local, Output, Status, absent_text, record_text, refuse_by_text, too_noisy_text,
    write_and_finish,
};
use tool_files::{refuse_database, words_for};

/// What a client sends is shorter than this.
const SESSION_LIMIT: u64 = 68_719_476_736;

/// What an exchange within the process finds.
#[derive(Drop)]
struct Found {
    /// all that was sent, and the answer behind it
    transcript: Vec<u8>,
    /// the record that was asked for
    record: Vec<u8>,
}

/// Looks up the record at an index in one process: asks by random words, where the query's noise fits, answers from the database in one
/// file, and writes the bytes of both directions to another and the record to a third.
pub fn local_files<R: Threads + Sync, F: Files, G: Gate, O: Sink>(
    rt: &R,
    alloc: Global,
    files: &mut F,
    gate: &G,
    sink: &mut O,
    local: &Local<'_>,
) -> Status
    requires some { 1 ≤ local.now.workers }
    requires few { local.now.workers ≤ 64 }
    requires cut { 1 ≤ local.now.cut }
    ensures { locals (local_seen local.now) (scene (F.seen files.old) (F.seen files.new) (O.seen sink.old) (O.seen sink.new)) result }
{
    let db = match read_db(alloc, files, local.db) {
        Ok(db) => db,
        Err(error) => return refuse_database(alloc, sink, error),
    };
    let set = db.set();
    let words = match words_for(alloc, files, sink, &set, local.index, local.source) {
        Ok(words) => words,
        Err(status) => return status,
    };
    match pir_client::ask(alloc, &set, local.index, &words) {
        Ok(asked) => look_up(rt, alloc, files, gate, sink, local, db, &asked),
        Err(AskError::TooNoisy { row, noise }) => {
            refuse_by_text(sink, too_noisy_text(alloc, row, noise), Status::TooNoisy)
        }
        // The index and the words were checked: only memory can be wanting.
        Err(_) => Status::NoMemory,
    }
}

// Looks up what was asked of a database, where it has a record at the index.
fn look_up<R: Threads + Sync, F: Files, G: Gate, O: Sink>(
    rt: &R,
    alloc: Global,
    files: &mut F,
    gate: &G,
    sink: &mut O,
    local: &Local<'_>,
    db: Database,
    asked: &Asked,
) -> Status
    requires some { 1 ≤ local.now.workers }
    requires few { local.now.workers ≤ 64 }
    requires cut { 1 ≤ local.now.cut }
    ensures { (words : List ℕ) → IsAsked db.set local.now.index words asked.now → local_present (local_seen local.now) db words (scene (F.seen files.old) (F.seen files.new) (O.seen sink.old) (O.seen sink.new)) result }
{
    let count = db.count();
    let length = db.length;
    if local.index >= count {
        let text = absent_text(alloc, local.index, count);
        return refuse_by_text(sink, text, Status::Absent);
    }
    match exchange(rt, alloc, db, local.workers, local.cut, asked, gate) {
        Ok(found) => write_found(alloc, files, sink, local, &found, length),
        Err(NoMemory) => Status::NoMemory,
    }
}

// Sends what was asked to a server of the database, a piece of so many bytes at a time, and opens the answer.
fn exchange<R: Threads + Sync, G: Gate>(
    rt: &R,
    alloc: Global,
    db: Database,
    workers: u32,
    cut: u32,
    asked: &Asked,
    gate: &G,
) -> Result<Found, NoMemory>
    requires some { 1 ≤ workers }
    requires few { workers ≤ 64 }
    requires cut { 1 ≤ cut }
    ensures { Finds db asked.now result }
{
    let sent = sent_bytes(alloc, asked)?;
    let link = serve_sent(rt, alloc, db, workers, cut, sent, gate)?;
    let reply = read_reply(alloc, link.wrote(), cut)?;
    let record = match pir_client::open(alloc, &asked.state, &reply) {
        Ok(record) => record,
        // The reply is that of the look-up: only memory can be wanting.
        Err(_) => return Err(NoMemory),
    };
    let transcript = link.into_transcript()?;
    Ok(Found { transcript, record })
}

// All that a client sends: the setup, and the query behind it.
fn sent_bytes(alloc: Global, asked: &Asked) -> Result<Vec<u8>, NoMemory>
    ensures { IfOk result (λ bytes. bytes.items ≡ asked.now.setup.items ++ asked.now.query.items) }
{
    let mut bytes = Vec::new(alloc);
    bytes.extend_from_slice(&asked.setup)?;
    bytes.extend_from_slice(&asked.query)?;
    Ok(bytes)
}

// A server of the database serves an input, which it is handed in pieces of so many bytes.
fn serve_sent<R: Threads + Sync, G: Gate>(
    rt: &R,
    alloc: Global,
    db: Database,
    workers: u32,
    cut: u32,
    input: Vec<u8>,
    gate: &G,
) -> Result<BufferLink, NoMemory>
    requires some { 1 ≤ workers }
    requires few { workers ≤ 64 }
    ensures input { IfOk result (λ link. link.input.items ≡ input.items) }
    ensures served { IfOk result (λ link. link.wrote.items ≡ serve_bytes db input.items) }
{
    let mut server = Server::new(rt, alloc, db, workers)?;
    let mut link = BufferLink::new(alloc, input, cut as usize);
    let end = server.session(rt, &mut link, SESSION_LIMIT, gate);
    match end.cause {
        EndCause::Done if link.is_read() => Ok(link),
        // A query is not refused, the link counts no fault and is shorter than the limit, and its input ends only behind the last
        // byte: only memory can be wanting.
        _ => Err(NoMemory),
    }
}

// What a server wrote, handed on in pieces of so many bytes, is one frame.
fn read_message(alloc: Global, bytes: &[u8], cut: u32) -> Result<Message, NoMemory>
    requires { 1 ≤ cut }
    ensures { IfOk result (λ m. IsOneOf client_kinds bytes.now (message_seen m)) }
{
    let mut frame = OneFrame::new(alloc, 24)?;
    let mut at = 0;
    'pieces: while at < bytes.len() {
        let count = (cut as usize).min(bytes.len() - at);
        frame = match frame.feed(&bytes[at..at + count]) {
            Ok(frame) => frame,
            // The answer is one frame: only memory can be wanting.
            Err(_) => return Err(NoMemory),
        };
        at += count;
    }
    match frame.finish() {
        Ok(message) => Ok(message),
        // As above.
        Err(_) => Err(NoMemory),
    }
}

// The reply that is that frame.
fn read_reply(alloc: Global, bytes: &[u8], cut: u32) -> Result<Reply, NoMemory>
    requires { 1 ≤ cut }
    ensures { IfOk result (λ reply. IsOneOf client_kinds bytes.now (reply_message reply)) }
{
    match read_message(alloc, bytes, cut)? {
        Message::Reply(reply) => Ok(reply),
        // A server of the database refuses no query.
        _ => Err(NoMemory),
    }
}

// Writes what was found, and puts the line of a record of that length.
fn write_found<'a, F: Files, O: Sink>(
    alloc: Global,
    files: &mut F,
    sink: &mut O,
    local: &'a Local<'a>,
    found: &'a Found,
    length: u32,
) -> Status
    ensures { write (found_outputs (local_seen local.now) found.now) (record_line length) (scene (F.seen files.old) (F.seen files.new) (O.seen sink.old) (O.seen sink.new)) result }
{
    let Ok(text) = record_text(alloc, length) else {
        return Status::NoMemory;
    };
    let outputs = [
        Output {
            name: local.transcript,
            bytes: &found.transcript,
        },
        Output {
            name: local.out,
            bytes: &found.record,
        },
    ];
    write_and_finish(files, sink, &outputs, text.as_bytes())
}
