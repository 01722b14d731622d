//! `fetch`, `serve` and `local` over objects in memory, with the frames of a look-up that was worked out by hand.
ghost use Rattle.std.specs.Prelude.{◌≡◌, ◌≤◌, IfOk};
ghost use Rattle.pir_io.specs.NetPlan.{unused_net};
ghost use Rattle.pir_io.specs.MemNet.{mem_net_seen};

use crate::commands::{expect_bytes, inputs, status_of, status_over};
use crate::frames::{edge_query, edge_reply};
use pir_io::{MemFiles, MemNet, MemSink, SoundNet};
use std::alloc::Global;
use std::process::Abort;
use std::test::Fail;
use std::thread::Threads;

const FETCH: &[&str] = &["fetch", "peer", "edge-256", "0", "words:words", "out"];

const SERVE: &[&str] = &["serve", "peer", "db", "2", "3"];

/// `fetch` connects, writes the query, since a set without keys has no setup, ends its side, and reads the 2087 bytes of the reply and their
/// end by four calls.
const FETCH_CALLS: u64 = 7;

/// `serve` listens and accepts; reads the 150551 bytes of the query by three calls, writes the reply, reads the end and ends its side; accepts
/// again, reads the end and ends its side.
const SERVE_CALLS: u64 = 11;

/// A net whose sessions have these inputs, and whose listed call fails.
fn net_of(alloc: Global, inputs: &[&[u8]], piece: usize, failing: u64) -> Result<MemNet, Fail>
    requires { 1 ≤ piece }
    ensures { IfOk result (λ net. mem_net_seen net ≡ unused_net) }
{
    let mut sessions = Vec::new(alloc);
    for input in inputs {
        sessions.push(input.to_vec(alloc)?)?;
    }
    Ok(MemNet::new(alloc, sessions, piece, vec![in alloc; failing]?))
}

/// What `fetch` has written of a query whose call of that number fails: the second call writes the half.
fn written_by(failing: u64, query: &[u8]) -> &[u8] {
    match failing {
        0 => &query[..0],
        1 => &query[..query.len() / 2],
        _ => query,
    }
}

/// `fetch` whose call of that number fails, or none where it makes so many.
fn expect_fetch<R: Abort + Threads + Sync>(
    rt: &R,
    alloc: Global,
    failing: u64,
) -> Result<(), Fail> {
    let mut files = inputs(alloc, Vec::new(alloc))?;
    let mut sink = MemSink::new(alloc, Vec::new(alloc));
    let mut net = net_of(alloc, &[&edge_reply(alloc, 0)?], 1000, failing)?;
    let status = status_over(rt, alloc, FETCH, &mut files, &mut net, &mut sink)?;
    let query = edge_query(alloc)?;
    let wrote = net.wrote(0).unwrap_or(b"");
    assert!(rt; wrote == written_by(failing, &query), "call {failing}");
    if failing == FETCH_CALLS {
        assert_eq!(rt;
            (status, sink.bytes()),
            (0, b"record 1024 bytes\n".as_slice())
        );
        let record = files.bytes("record").expect(rt, "an input");
        expect_bytes(rt, files.bytes("out"), record, "out");
    } else {
        assert_eq!(rt;
            (status, sink.bytes()),
            (8, b"link fault\n".as_slice()),
            "call {failing}"
        );
        assert!(rt; files.bytes("out").is_none(), "call {failing}");
    }
    Ok(())
}

#[test]
fn a_fetch_fails_at_each_call(rt: HostRuntime) -> Result<(), Fail> {
    for failing in 0..=FETCH_CALLS {
        expect_fetch(&rt, rt.alloc(), failing)?;
    }
    Ok(())
}

/// `fetch` from a peer that sends these bytes ends with that status and line, and makes no file.
fn expect_unfetched<R: Abort + Threads + Sync>(
    rt: &R,
    alloc: Global,
    sent: &[u8],
    status: u8,
    line: &[u8],
) -> Result<(), Fail> {
    let mut files = inputs(alloc, Vec::new(alloc))?;
    let mut sink = MemSink::new(alloc, Vec::new(alloc));
    let mut net = net_of(alloc, &[sent], 1000, FETCH_CALLS)?;
    let found = status_over(rt, alloc, FETCH, &mut files, &mut net, &mut sink)?;
    assert_eq!(rt; (found, sink.bytes()), (status, line));
    assert!(rt; files.bytes("out").is_none());
    Ok(())
}

// A Refuse frame of code 12 and place 0; a reply with a byte behind it, and one without its last.
#[test]
fn a_fetch_tells_what_came(rt: HostRuntime) -> Result<(), Fail> {
    let alloc = rt.alloc();
    let refuse = b"SPIR\x01\x04\x08edge-256\x09\0\0\0\0\0\0\0\x0c\0\0\0\0\0\0\0\0";
    expect_unfetched(&rt, alloc, refuse, 12, b"peer refused: code 12, place 0\n")?;
    let mut longer = edge_reply(alloc, 0)?;
    longer.push(0)?;
    expect_unfetched(
        &rt,
        alloc,
        &longer,
        9,
        b"bad frame: input 2, code 14, place 2087\n",
    )?;
    let mut cut = edge_reply(alloc, 0)?;
    let _last = cut.pop();
    expect_unfetched(
        &rt,
        alloc,
        &cut,
        9,
        b"bad frame: input 2, code 1, place 2086\n",
    )?;
    Ok(())
}

#[test]
fn a_fetch_whose_line_cant_be_put_keeps_its_record(rt: HostRuntime) -> Result<(), Fail> {
    let alloc = rt.alloc();
    let mut files = inputs(alloc, Vec::new(alloc))?;
    let mut sink = MemSink::new(alloc, vec![in alloc; 0u64]?);
    let mut net = net_of(alloc, &[&edge_reply(alloc, 0)?], 1000, FETCH_CALLS)?;
    let status = status_over(&rt, alloc, FETCH, &mut files, &mut net, &mut sink)?;
    assert_eq!(rt; status, 14);
    let record = files.bytes("record").expect(&rt, "an input");
    expect_bytes(&rt, files.bytes("out"), record, "out");
    Ok(())
}

/// The status and the lines of `serve` whose call of that number fails.
fn served_by(failing: u64) -> (u8, &'static [u8]) {
    match failing {
        0 | 1 => (8, b"link fault\n"),
        2 | 3 | 4 | 5 => (
            8,
            b"session 1: 0 answered, link fault\nsession 2: 0 answered, done\nlink fault\n",
        ),
        6 => (
            8,
            b"session 1: 1 answered, link fault\nsession 2: 0 answered, done\nlink fault\n",
        ),
        8 => (8, b"session 1: 1 answered, done\nlink fault\n"),
        9 => (
            8,
            b"session 1: 1 answered, done\nsession 2: 0 answered, link fault\nlink fault\n",
        ),
        _ => (
            0,
            b"session 1: 1 answered, done\nsession 2: 0 answered, done\n",
        ),
    }
}

/// `serve` of two sessions, a query and an empty input, whose call of that number fails, or none where it makes so many.
fn expect_serve<R: Abort + Threads + Sync>(
    rt: &R,
    alloc: Global,
    failing: u64,
) -> Result<(), Fail> {
    let mut files = inputs(alloc, Vec::new(alloc))?;
    let mut sink = MemSink::new(alloc, Vec::new(alloc));
    let mut net = net_of(alloc, &[&edge_query(alloc)?, b""], 65536, failing)?;
    let status = status_over(rt, alloc, SERVE, &mut files, &mut net, &mut sink)?;
    assert_eq!(rt;
        (status, sink.bytes()),
        served_by(failing),
        "call {failing}"
    );
    if failing > 5 {
        assert!(rt;
            net.wrote(0).unwrap_or(b"") == &edge_reply(alloc, 0)?[..],
            "call {failing}"
        );
    }
    Ok(())
}

#[test]
fn a_serve_fails_at_each_call(rt: HostRuntime) -> Result<(), Fail> {
    for failing in 0..=SERVE_CALLS {
        expect_serve(&rt, rt.alloc(), failing)?;
    }
    Ok(())
}

#[test]
fn a_serve_whose_line_cant_be_put_ends(rt: HostRuntime) -> Result<(), Fail> {
    let alloc = rt.alloc();
    let mut files = inputs(alloc, Vec::new(alloc))?;
    let mut sink = MemSink::new(alloc, vec![in alloc; 0u64]?);
    let mut net = net_of(alloc, &[b"", b""], 1000, SERVE_CALLS)?;
    let status = status_over(&rt, alloc, SERVE, &mut files, &mut net, &mut sink)?;
    assert_eq!(rt; status, 14);
    Ok(())
}

// The query and the reply behind it.
#[test]
fn a_look_up_in_one_process(rt: HostRuntime) -> Result<(), Fail> {
    let alloc = rt.alloc();
    let mut files = inputs(alloc, Vec::new(alloc))?;
    let mut sink = MemSink::new(alloc, Vec::new(alloc));
    let words = &[
        "local",
        "db",
        "0",
        "words:words",
        "wire",
        "out",
        "3",
        "1000",
    ];
    assert_eq!(rt; status_of(&rt, alloc, words, &mut files, &mut sink)?, 0);
    let mut wire = edge_query(alloc)?;
    wire.extend_from_slice(&edge_reply(alloc, 0)?)?;
    expect_bytes(&rt, files.bytes("wire"), &wire, "wire");
    let record = files.bytes("record").expect(&rt, "an input");
    expect_bytes(&rt, files.bytes("out"), record, "out");
    Ok(())
}

const PREPARE_ONE: &[&str] = &["prepare", "tiny-stream", "1", "one", "db"];

const ASK_ONE: &[&str] = &[
    "ask",
    "tiny-stream",
    "0",
    "seed:seed",
    "state",
    "setup",
    "query",
];

/// A database of tiny-stream with one record of one byte, and the query for it from a seed of zeros.
fn one_record<R: Abort + Threads + Sync>(rt: &R, alloc: Global) -> Result<MemFiles, Fail> {
    let mut files = MemFiles::new(alloc, Vec::new(alloc));
    files.with("one", b"\x5a")?;
    files.with("seed", &[0; 32])?;
    let mut sink = MemSink::new(alloc, Vec::new(alloc));
    assert_eq!(rt;
        status_of(rt, alloc, PREPARE_ONE, &mut files, &mut sink)?,
        0
    );
    assert_eq!(rt; status_of(rt, alloc, ASK_ONE, &mut files, &mut sink)?, 0);
    Ok(files)
}

#[test]
fn a_query_from_a_seed_and_an_empty_session_are_served(rt: HostRuntime) -> Result<(), Fail> {
    let alloc = rt.alloc();
    let mut files = one_record(&rt, alloc)?;
    let mut inputs = Vec::new(alloc);
    inputs.push(files.bytes("query").ok_or("no query")?.to_vec(alloc)?)?;
    inputs.push(Vec::new(alloc))?;
    let mut net = SoundNet::new(alloc, inputs, 65536);
    let mut sink = MemSink::new(alloc, Vec::new(alloc));
    assert_eq!(rt;
        status_over(&rt, alloc, SERVE, &mut files, &mut net, &mut sink)?,
        0
    );
    let lines = b"session 1: 1 answered, done\nsession 2: 0 answered, done\n".as_slice();
    assert_eq!(rt; sink.bytes(), lines);
    Ok(())
}
