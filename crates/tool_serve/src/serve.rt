ghost use Rattle.std.specs.Prelude.{false, ◌≡◌, ◌≤◌, IfOk};
ghost use Rattle.spiral_model.specs.Databases.{IsTable};
ghost use Rattle.tool_base.specs.Steps.{scene};
ghost use Rattle.tool_base.specs.Words.{serve_seen};
ghost use Rattle.tool_serve.specs.Serve.{serves};

use crate::sessions_served::serve_sessions;
use no_memory::NoMemory;
use pir_io::{Files, Gate, IoFault, Net, Sink};
use pir_server::Server;
use record_store::{Database, read_db};
use std::alloc::Global;
use std::thread::Threads;
use tool_base::{LINK_FAULT, Serve, Status, refuse};
use tool_files::refuse_database;

/// Listens at an address, and answers the queries of so many sessions, one after the other, from the database in a file.
pub fn serve_net<R: Threads + Sync, F: Files, N: Net, G: Gate, O: Sink>(
    rt: &R,
    alloc: Global,
    files: &mut F,
    net: &mut N,
    gate: &G,
    sink: &mut O,
    serve: &Serve<'_>,
) -> Status
    requires some { 1 ≤ serve.now.workers }
    requires few { serve.now.workers ≤ 64 }
    requires sessions { 1 ≤ serve.now.sessions }
    requires closed { (N.seen net.old).is_open ≡ false }
    ensures { serves (serve_seen serve.now) (N.seen net.old) (N.seen net.new) (scene (F.seen files.old) (F.seen files.new) (O.seen sink.old) (O.seen sink.new)) result }
{
    let db = match read_db(alloc, files, serve.db) {
        Ok(db) => db,
        Err(error) => return refuse_database(alloc, sink, error),
    };
    let mut server = match server_of(rt, alloc, db, serve.workers) {
        Ok(server) => server,
        Err(NoMemory) => return Status::NoMemory,
    };
    match net.listen(serve.addr) {
        Ok(()) => serve_sessions(rt, alloc, &mut server, net, gate, sink, serve.sessions),
        Err(IoFault::Failed) => refuse(sink, LINK_FAULT, Status::LinkFault),
        Err(IoFault::NoMemory) => Status::NoMemory,
    }
}

// A server of a database, which is one.
fn server_of<R: Threads + Sync>(
    rt: &R,
    alloc: Global,
    db: Database,
    workers: u32,
) -> Result<Server, NoMemory>
    requires some { 1 ≤ workers }
    requires few { workers ≤ 64 }
    ensures table { IsTable db }
    ensures server { IfOk result (λ server. server.table ≡ db) }
{
    // what is known of it is seen where a field of it is
    let _set = &db.set;
    Server::new(rt, alloc, db, workers)
}
