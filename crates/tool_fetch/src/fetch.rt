ghost use Rattle.std.specs.Prelude.{◌≡◌, ◌++◌, false};
ghost use Rattle.tool_base.specs.Steps.{scene};
ghost use Rattle.tool_base.specs.Words.{fetch_seen};
ghost use Rattle.tool_files.specs.Given.{IsAnswer};
ghost use Rattle.tool_files.specs.Open.{opens_answer};
ghost use Rattle.tool_fetch.specs.Exchanging.{looks_up};
ghost use Rattle.tool_fetch.specs.Fetch.{fetches};

use crate::exchange::{LinkError, exchange};
use modulus_switch::ClientState;
use pir_client::{AskError, Asked};
use pir_io::{Files, Net, Sink};
use std::alloc::Global;
use tool_base::{
    Fetch, LINK_FAULT, Status, bad_frame_text, peer_refused_text, refuse, refuse_by_text,
    too_noisy_text,
};
use tool_files::{PeerAnswer, given_words, open_reply};

/// Makes a query for an index from random words, where its noise fits, looks the record up by the server at an address, and writes it.
pub fn fetch_net<F: Files, N: Net, O: Sink>(
    alloc: Global,
    files: &mut F,
    net: &mut N,
    sink: &mut O,
    fetch: &Fetch<'_>,
) -> Status
    requires { (N.seen net.old).is_open ≡ false }
    ensures { fetches (fetch_seen fetch.now) (N.seen net.old) (N.seen net.new) (scene (F.seen files.old) (F.seen files.new) (O.seen sink.old) (O.seen sink.new)) result }
{
    let given = match given_words(alloc, files, sink, fetch.set, fetch.index, fetch.source) {
        Ok(given) => given,
        Err(status) => return status,
    };
    match pir_client::ask(alloc, &given.set, fetch.index, &given.words) {
        Ok(asked) => look_up(alloc, files, net, sink, fetch, &asked),
        Err(AskError::TooNoisy { row, noise }) => {
            refuse_by_text(sink, too_noisy_text(alloc, row, noise), Status::TooNoisy)
        }
        // The index and the words were checked: only memory can be wanting.
        Err(_) => Status::NoMemory,
    }
}

// Sends what was asked to the server, and goes on with what comes.
fn look_up<F: Files, N: Net, O: Sink>(
    alloc: Global,
    files: &mut F,
    net: &mut N,
    sink: &mut O,
    fetch: &Fetch<'_>,
    asked: &Asked,
) -> Status
    requires { (N.seen net.old).is_open ≡ false }
    ensures { looks_up fetch.now.addr.now fetch.now.out.now (asked.now.setup.items ++ asked.now.query.items) asked.now.state (N.seen net.old) (N.seen net.new) (scene (F.seen files.old) (F.seen files.new) (O.seen sink.old) (O.seen sink.new)) result }
{
    match exchange(alloc, net, fetch.addr, &asked.setup, &asked.query) {
        Ok(answer) => open_answer(alloc, files, sink, &asked.state, answer, fetch.out),
        Err(LinkError::Fault) => refuse(sink, LINK_FAULT, Status::LinkFault),
        Err(LinkError::Frame(error)) => refuse_by_text(
            sink,
            bad_frame_text(alloc, 2, error.code(), error.place()),
            Status::BadFrame,
        ),
        Err(LinkError::NoMemory) => Status::NoMemory,
    }
}

// Opens a server's reply by the state, and writes the record; a refusal ends the command.
fn open_answer<F: Files, O: Sink>(
    alloc: Global,
    files: &mut F,
    sink: &mut O,
    state: &ClientState,
    answer: PeerAnswer,
    out: &str,
) -> Status
    requires { IsAnswer answer }
    ensures { opens_answer out.now state.now answer (scene (F.seen files.old) (F.seen files.new) (O.seen sink.old) (O.seen sink.new)) result }
{
    // A look at a field tells what every state keeps.
    let _set = &state.set;
    match answer {
        PeerAnswer::Reply(reply) => open_reply(alloc, files, sink, state, &reply, out),
        PeerAnswer::Refuse { code, place } => refuse_by_text(
            sink,
            peer_refused_text(alloc, code, place),
            Status::PeerRefused,
        ),
    }
}
