//! Sessions of a server over a link in memory: the input's end, its refusals and its limit.
ghost use Rattle.std.specs.Prelude.{◌<◌, ◌≡◌};
ghost use Rattle.pir_io.specs.MemLink.{mem_link_seen, unused_link};

use pir_io::{MemLink, OpenGate};
use pir_server::{EndCause, Server, SessionEnd};
use record_store::prepare;
use spiral_sets::set_at;
use std::alloc::Global;
use std::process::Abort;
use std::test::Fail;
use std::thread::Threads;

/// How many bytes a read gives at most.
const PIECE: usize = 1000;

/// tiny-spiral's place in the table of sets.
const TINY_SPIRAL: usize = 0;

/// tiny-stream's place in the table of sets.
const TINY_STREAM: usize = 2;

/// spiral-2048's place in the table of sets.
const SPIRAL_2048: usize = 5;

/// A server of one record of the set at that place.
fn server_at<R: Threads + Sync>(rt: &R, alloc: Global, place: usize) -> Result<Server, Fail>
    requires { place < 10 }
{
    let db = prepare(&set_at(place), 1, vec![in alloc; 3u8]?)?;
    Ok(Server::new(rt, alloc, db, 1)?)
}

/// The Query frame of that header, and so many zeros behind it.
fn with_zeros(alloc: Global, header: &[u8], len: usize) -> Result<Vec<u8>, Fail> {
    let mut frame = header.to_vec(alloc)?;
    frame.resize(len, 0)?;
    Ok(frame)
}

// 40 ciphertexts of 3 * 256 residues of 7 bytes, behind 26 bytes of header.
fn tiny_stream_query(alloc: Global) -> Result<Vec<u8>, Fail> {
    with_zeros(
        alloc,
        b"SPIR\x01\x02\x0btiny-stream\0\xa0\x02\0\0\0\0\0",
        172_058,
    )
}

/// A link with that input, none of whose calls fails.
fn link_of(alloc: Global, input: Vec<u8>) -> MemLink
    ensures { mem_link_seen result ≡ unused_link }
{
    MemLink::new(alloc, input, PIECE, Vec::new(alloc))
}

/// A server of the set at that place ends a session of that input so, and has written these bytes.
fn expect_session<R: Threads + Sync + Abort>(
    rt: &R,
    alloc: Global,
    place: usize,
    input: Vec<u8>,
    limit: u64,
    end: SessionEnd,
    wrote: &[u8],
) -> Result<(), Fail>
    requires { place < 10 }
{
    let mut server = server_at(rt, alloc, place)?;
    let mut link = link_of(alloc, input);
    let found = server.session(rt, &mut link, limit, &OpenGate);
    assert_eq!(rt; found, end);
    assert_eq!(rt; link.wrote(), wrote);
    Ok(())
}

/// The end of a session that wrote no reply.
fn unanswered(taken: u64, cause: EndCause) -> SessionEnd {
    SessionEnd {
        answered: 0,
        taken,
        cause,
    }
}

#[test]
fn an_empty_input_is_done(rt: HostRuntime) -> Result<(), Fail> {
    let alloc = rt.alloc();
    let end = unanswered(0, EndCause::Done);
    expect_session(&rt, alloc, TINY_STREAM, Vec::new(alloc), 1000, end, b"")?;
    Ok(())
}

// 172057 is 0x02a019.
#[test]
fn a_query_without_its_last_byte_is_short(rt: HostRuntime) -> Result<(), Fail> {
    let alloc = rt.alloc();
    let mut input = tiny_stream_query(alloc)?;
    let _last = input.pop();
    let end = unanswered(
        172_057,
        EndCause::Refused {
            code: 1,
            at: 172_057,
        },
    );
    let wrote = b"SPIR\x01\x04\x0btiny-stream\x09\0\0\0\0\0\0\0\x01\x19\xa0\x02\0\0\0\0\0";
    expect_session(&rt, alloc, TINY_STREAM, input, 1 << 30, end, wrote)?;
    Ok(())
}

// A query of tiny-spiral has one ciphertext of 2 * 256 residues.
#[test]
fn a_limit_within_a_frame_ends_a_session(rt: HostRuntime) -> Result<(), Fail> {
    let alloc = rt.alloc();
    let input = with_zeros(
        alloc,
        b"SPIR\x01\x02\x0btiny-spiral\0\x0e\0\0\0\0\0\0",
        3610,
    )?;
    let end = unanswered(10, EndCause::Limit);
    expect_session(&rt, alloc, TINY_SPIRAL, input, 10, end, b"")?;
    Ok(())
}

// A query of edge-256 has 28 ciphertexts of 3 * 256 residues.
#[test]
fn a_message_of_another_set_is_refused(rt: HostRuntime) -> Result<(), Fail> {
    let alloc = rt.alloc();
    let input = with_zeros(
        alloc,
        b"SPIR\x01\x02\x08edge-256\0\x4c\x02\0\0\0\0\0",
        150_551,
    )?;
    let end = unanswered(150_551, EndCause::Refused { code: 11, at: 0 });
    let wrote = b"SPIR\x01\x04\x0btiny-stream\x09\0\0\0\0\0\0\0\x0b\0\0\0\0\0\0\0\0";
    expect_session(&rt, alloc, TINY_STREAM, input, 1 << 30, end, wrote)?;
    Ok(())
}

// A query of spiral-2048 has one ciphertext of 2 * 2048 residues.
#[test]
fn a_query_before_any_setup_is_refused(rt: HostRuntime) -> Result<(), Fail> {
    let alloc = rt.alloc();
    let input = with_zeros(
        alloc,
        b"SPIR\x01\x02\x0bspiral-2048\0\x70\0\0\0\0\0\0",
        28_698,
    )?;
    let end = unanswered(28_698, EndCause::Refused { code: 12, at: 0 });
    let wrote = b"SPIR\x01\x04\x0bspiral-2048\x09\0\0\0\0\0\0\0\x0c\0\0\0\0\0\0\0\0";
    expect_session(&rt, alloc, SPIRAL_2048, input, 1 << 30, end, wrote)?;
    Ok(())
}
