ghost use Rattle.std.specs.Prelude.{◌≡◌, ◌≤◌, length, option_map, IfOk};
ghost use Rattle.std.specs.Option.{option_copied};
ghost use Rattle.spiral_model.specs.Sets.{IsSet, name_of};
ghost use Rattle.spiral_model.specs.Bodies.{IsQuery};
ghost use Rattle.spiral_model.specs.Keys.{keys_in};
ghost use Rattle.tool_base.specs.Outputs.{one};
ghost use Rattle.tool_base.specs.Steps.{scene, write};
ghost use Rattle.tool_base.specs.Texts.{reply_line};
ghost use Rattle.tool_base.specs.Words.{answer_seen};
ghost use Rattle.tool_files.specs.Inputs.{SpellsKeys, setup_kinds};
ghost use Rattle.tool_files.specs.Reading.{ReadsMessage};
ghost use Rattle.tool_files.specs.Emptiness.{FindsEmpty};
ghost use Rattle.tool_files.specs.Given.{IsRead, IsGiven};
ghost use Rattle.frame_streams.specs.Serving.{reply_for, reply_frame as frame_of_reply};
ghost use Rattle.tool_files.specs.Answer.{answers, set_of_setup as set_of_setup_for};

use crate::frames::{read_keys, read_query};
use crate::input::InputError;
use crate::refusals::{refuse_database, refuse_input, refuse_set};
use modulus_switch::Reply;
use no_memory::NoMemory;
use pir_io::{Files, Gate, IoFault, Sink};
use pir_server::Server;
use pir_wire::encode_reply;
use record_store::{Database, read_db};
use regev_code::{KeyBody, QueryBody};
use spiral_sets::ParamSet;
use std::alloc::Global;
use std::thread::Threads;
use tool_base::{Answer, Output, Status, reply_text, write_and_finish};

/// Answers the query in one file from the database in another, with the keys in a third, and writes the reply to a fourth.
pub fn answer_files<R: Threads + Sync, F: Files, G: Gate, O: Sink>(
    rt: &R,
    alloc: Global,
    files: &mut F,
    gate: &G,
    sink: &mut O,
    answer: &Answer<'_>,
) -> Status
    requires some { 1 ≤ answer.now.workers }
    requires few { answer.now.workers ≤ 64 }
    ensures { answers (answer_seen answer.now) (scene (F.seen files.old) (F.seen files.new) (O.seen sink.old) (O.seen sink.new)) result }
{
    let db = match read_db(alloc, files, answer.db) {
        Ok(db) => db,
        Err(error) => return refuse_database(alloc, sink, error),
    };
    let set = db.set;
    let setup = match read_setup(alloc, files, &set, answer.setup) {
        Ok(setup) => setup,
        Err(error) => return refuse_input(alloc, sink, 2, error),
    };
    let query = match read_query(alloc, files, answer.query) {
        Ok(query) => query,
        Err(error) => return refuse_input(alloc, sink, 3, error),
    };
    let keys = setup.as_ref();
    let keys_set = set_of_setup(&set, keys);
    if !set.is(&keys_set) {
        return refuse_set(alloc, sink, &set, &keys_set);
    }
    if !set.is(&query.set) {
        return refuse_set(alloc, sink, &set, &query.set);
    }
    match reply_frame(rt, alloc, db, answer.workers, keys, &query, gate) {
        Ok(frame) => write_reply(alloc, files, sink, &set, &frame, answer.reply),
        Err(NoMemory) => Status::NoMemory,
    }
}

// Whether a file holds no byte.
fn is_empty<F: Files>(files: &mut F, name: &str) -> Result<bool, IoFault>
    ensures { FindsEmpty (F.seen files.old) (F.seen files.new) name.now result }
{
    let mut byte = [0u8; 1];
    let count = files.read_at(name, 0, &mut byte)?;
    Ok(count == 0)
}

// Reads SETUP for a database of that set: one Setup frame; or nothing, where the set has no keys.
fn read_setup<F: Files>(
    alloc: Global,
    files: &mut F,
    set: &ParamSet,
    name: &str,
) -> Result<Option<KeyBody>, InputError>
    ensures reads { ReadsMessage setup_kinds (SpellsKeys set.now) (F.seen files.old) (F.seen files.new) name.now result }
    ensures fits { IfOk result (λ setup. IsRead set.now setup) }
{
    if set.has_keys() {
        return match read_keys(alloc, files, name) {
            Ok(keys) => Ok(Some(keys)),
            Err(error) => Err(error),
        };
    }
    match is_empty(files, name) {
        Ok(true) => Ok(None),
        Ok(false) => match read_keys(alloc, files, name) {
            Ok(keys) => Ok(Some(keys)),
            Err(error) => Err(error),
        },
        Err(IoFault::Failed) => Err(InputError::File),
        Err(IoFault::NoMemory) => Err(InputError::NoMemory),
    }
}

// The set of the keys that were read; where there are none, the database's own.
fn set_of_setup(set: &ParamSet, setup: Option<&KeyBody>) -> ParamSet
    ensures { result ≡ set_of_setup_for set.now (option_copied setup.entry) }
{
    match setup {
        Some(keys) => keys.set,
        None => *set,
    }
}

// The answer to a query of the database's set, with the keys of that set where it has some.
fn answer_with<R: Threads + Sync, G: Gate>(
    rt: &R,
    server: &mut Server,
    setup: Option<&KeyBody>,
    query: &QueryBody,
    gate: &G,
) -> Result<Reply, NoMemory>
    requires setup { IsGiven server.old.table.set (option_copied setup) }
    requires set { query.now.set ≡ server.old.table.set }
    requires query { IsQuery query.now }
    ensures { IfOk result (λ reply. reply ≡ reply_for server.old.table (option_map keys_in (option_copied setup.entry)) query.now) }
{
    match setup {
        Some(setup) if setup.set.has_keys() => {
            let keys = server.keys(setup)?;
            server.answer(rt, Some(&keys), query, gate)
        }
        Some(_) => server.answer(rt, None, query, gate),
        None => server.answer(rt, None, query, gate),
    }
}

// The frame of that answer.
fn reply_frame<R: Threads + Sync, G: Gate>(
    rt: &R,
    alloc: Global,
    db: Database,
    workers: u32,
    setup: Option<&KeyBody>,
    query: &QueryBody,
    gate: &G,
) -> Result<Vec<u8>, NoMemory>
    requires setup { IsGiven db.set (option_copied setup) }
    requires set { query.now.set ≡ db.set }
    requires query { IsQuery query.now }
    requires some { 1 ≤ workers }
    requires few { workers ≤ 64 }
    ensures { IfOk result (λ bytes. bytes.items ≡ frame_of_reply db (option_map keys_in (option_copied setup.entry)) query.now) }
{
    let mut server = Server::new(rt, alloc, db, workers)?;
    let reply = answer_with(rt, &mut server, setup, query, gate)?;
    encode_reply(alloc, &reply)
}

// Writes the frame of a reply of that set, and puts its line.
fn write_reply<F: Files, O: Sink>(
    alloc: Global,
    files: &mut F,
    sink: &mut O,
    set: &ParamSet,
    frame: &[u8],
    name: &str,
) -> Status
    requires { IsSet set.now }
    ensures { write (one name.now frame.now) (reply_line (name_of set.now) (length frame.now)) (scene (F.seen files.old) (F.seen files.new) (O.seen sink.old) (O.seen sink.new)) result }
{
    let Ok(text) = reply_text(alloc, set.name(), frame.len()) else {
        return Status::NoMemory;
    };
    write_and_finish(
        files,
        sink,
        &[Output { name, bytes: frame }],
        text.as_bytes(),
    )
}
