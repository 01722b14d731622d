ghost use Rattle.std.specs.Prelude.{IsTrue, true, false, ◌≡◌, ◌+◌, ◌^◌, ◌<◌, IfOk};
ghost use Rattle.std.specs.Option.{option_copied};
ghost use Rattle.spiral_model.specs.Bodies.{IsSetup, IsQuery};
ghost use Rattle.spiral_frames.specs.Frames.{IsMessage, set_of_message, setup_message, query_message};
ghost use Rattle.frame_streams.specs.Serving.{kept_keys, lacks_keys, reply_frame};
ghost use Rattle.regev_code.specs.KeyShapes.{AreKeysFor};
ghost use Rattle.pir_wire.specs.Messages.{message_seen};
ghost use Rattle.pir_server.specs.Talks.{KeysFit, IsTalk, Sends, Serves, ServesNext, ServesReady};

use super::EndCause;
use super::sending::{give_up, refuse, send_reply};
use super::talk::Talk;
use crate::server::Server;
use no_memory::NoMemory;
use pir_io::{Gate, Link};
use pir_wire::Message;
use regev_code::{EvalKeys, KeyBody, QueryBody};
use spiral_sets::ParamSet;
use std::thread::Threads;

/// The keys that a setup leaves: none in a set without keys.
fn keys_kept(server: &Server, setup: &KeyBody) -> Result<Option<EvalKeys>, NoMemory>
    requires set { setup.now.set ≡ server.now.table.set }
    requires setup { IsSetup setup.now }
    ensures { IfOk result (λ keys. keys ≡ kept_keys server.now.table.set setup.now) }
{
    if setup.set.has_keys() {
        Ok(Some(server.keys(setup)?))
    } else {
        Ok(None)
    }
}

/// Whether keys are wanted, and none have come.
fn keys_wanting(set: &ParamSet, keys: &Option<EvalKeys>) -> bool
    ensures { result ≡ lacks_keys set.now keys.now }
{
    match keys {
        Some(_) => false,
        None => set.has_keys(),
    }
}

/// The id of a message's set.
fn set_id(message: &Message) -> u8
    ensures { result ≡ (set_of_message (message_seen message.now)).id }
{
    match message {
        Message::Setup(keys) => keys.set.id,
        Message::Query(query) => query.set.id,
        Message::Reply(reply) => reply.set().id,
        Message::Refuse { set, .. } => set.id,
        Message::State(state) => state.set.id,
    }
}

/// Answers a query, and writes the reply.
fn reply_to<R: Threads + Sync, L: Link, G: Gate>(
    server: &mut Server,
    rt: &R,
    link: &mut L,
    keys: Option<&EvalKeys>,
    query: &QueryBody,
    gate: &G,
) -> Result<(), EndCause>
    requires open { IsTrue (L.seen link.old).is_open }
    requires set { query.now.set ≡ server.old.table.set }
    requires query { IsQuery query.now }
    requires keys { AreKeysFor server.old.table.set (option_copied keys) }
    ensures sends { Sends server.old.table.set (reply_frame server.old.table (option_copied keys.entry) query.now) (L.seen link.old) (L.seen link.new) result }
    ensures server { server.new ≡ server.old }
{
    let (alloc, set) = server.context();
    match server.answer(rt, keys, query, gate) {
        Ok(reply) => send_reply(alloc, link, &set, &reply),
        Err(_) => Err(give_up(alloc, link, &set)),
    }
}

/// Keeps the keys of a setup, in place of earlier ones.
fn serve_setup<L: Link>(
    server: &Server,
    link: &mut L,
    talk: &mut Talk,
    setup: &KeyBody,
) -> Result<(), EndCause>
    requires open { IsTrue (L.seen link.old).is_open }
    requires set { setup.now.set ≡ server.now.table.set }
    requires setup { IsSetup setup.now }
    ensures { Serves server.now.table (record { place = talk.old.decoder.last; message = setup_message setup.now }) (L.seen link.old) (L.seen link.new) talk.old talk.new result }
{
    match keys_kept(server, setup) {
        Ok(keys) => {
            talk.keys = keys;
            Ok(())
        }
        Err(_) => {
            let (alloc, set) = server.context();
            Err(give_up(alloc, link, &set))
        }
    }
}

/// Answers a query, or refuses it where it comes before any setup in a set with keys.
fn serve_query<R: Threads + Sync, L: Link, G: Gate>(
    server: &mut Server,
    rt: &R,
    link: &mut L,
    talk: &mut Talk,
    query: &QueryBody,
    gate: &G,
) -> Result<(), EndCause>
    requires open { IsTrue (L.seen link.old).is_open }
    requires set { query.now.set ≡ server.old.table.set }
    requires query { IsQuery query.now }
    requires fit { KeysFit server.old.table.set talk.old.keys }
    requires room { talk.old.answered + 1 < 2 ^ 64 }
    ensures serves { Serves server.old.table (record { place = talk.old.decoder.last; message = query_message query.now }) (L.seen link.old) (L.seen link.new) talk.old talk.new result }
    ensures server { server.new ≡ server.old }
{
    let (alloc, set) = server.context();
    if keys_wanting(&set, &talk.keys) {
        return Err(refuse(alloc, link, &set, 12, talk.decoder.start()));
    }
    reply_to(server, rt, link, talk.keys.as_ref(), query, gate)?;
    talk.answered += 1;
    Ok(())
}

/// Serves the message that was taken last. One of another set is refused.
fn serve<R: Threads + Sync, L: Link, G: Gate>(
    server: &mut Server,
    rt: &R,
    link: &mut L,
    talk: &mut Talk,
    message: &Message,
    gate: &G,
) -> Result<(), EndCause>
    requires open { IsTrue (L.seen link.old).is_open }
    requires is { IsMessage (message_seen message.now) }
    requires fit { KeysFit server.old.table.set talk.old.keys }
    requires room { talk.old.answered + 1 < 2 ^ 64 }
    ensures serves { Serves server.old.table (record { place = talk.old.decoder.last; message = message_seen message.now }) (L.seen link.old) (L.seen link.new) talk.old talk.new result }
    ensures server { server.new ≡ server.old }
{
    let (alloc, set) = server.context();
    if set_id(message) != set.id {
        return Err(refuse(alloc, link, &set, 11, talk.decoder.start()));
    }
    match message {
        Message::Setup(setup) => serve_setup(server, link, talk, setup),
        Message::Query(query) => serve_query(server, rt, link, talk, query, gate),
        // the decoder takes no other kind
        Message::Reply(_) | Message::Refuse { .. } | Message::State(_) => Ok(()),
    }
}

/// Takes the next message and serves it; false where none is whole.
fn serve_next<R: Threads + Sync, L: Link, G: Gate>(
    server: &mut Server,
    rt: &R,
    link: &mut L,
    talk: &mut Talk,
    gate: &G,
) -> Result<bool, EndCause>
    requires open { IsTrue (L.seen link.old).is_open }
    requires talk { IsTalk server.old.table talk.old }
    ensures serves { ServesNext server.old.table (L.seen link.old) (L.seen link.new) talk.old talk.new result }
    ensures server { server.new ≡ server.old }
{
    match talk.decoder.take() {
        Some(message) => {
            serve(server, rt, link, talk, &message, gate)?;
            Ok(true)
        }
        None => Ok(false),
    }
}

/// Serves the messages that are whole, in their order.
pub(crate) fn serve_ready<R: Threads + Sync, L: Link, G: Gate>(
    server: &mut Server,
    rt: &R,
    link: &mut L,
    talk: &mut Talk,
    gate: &G,
) -> Result<(), EndCause>
    requires open { IsTrue (L.seen link.old).is_open }
    requires talk { IsTalk server.old.table talk.old }
    ensures serves { ServesReady server.old.table (L.seen link.old) (L.seen link.new) talk.old talk.new result }
    ensures server { server.new ≡ server.old }
{
    'messages: loop {
        if !serve_next(server, rt, link, talk, gate)? {
            return Ok(());
        }
    }
}
