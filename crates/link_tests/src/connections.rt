//! The system's connections: two ends in one process and one thread.
ghost use Rattle.std.specs.Prelude.{IsTrue};

use pir_io::{IoFault, Limits, Link, Net, TcpNet};
use std::alloc::Global;
use std::process::Abort;
use std::test::Fail;
use std::thread;
use std::time::{Clock, Duration};

/// 300 ms of silence, and 1 s for a session that was accepted.
fn short() -> Limits {
    Limits {
        accepted_silence: Duration::from_millis(300),
        accepted_session: Duration::from_secs(1),
        own_silence: Duration::from_secs(5),
    }
}

/// Listens at the first port that is free: other runs may have some.
fn listen_somewhere<N: Net>(alloc: Global, net: &mut N) -> Result<String, IoFault> {
    for port in 27_301..27_400 {
        let addr = format!(in alloc; "127.0.0.1:{port}")?;
        if net.listen(&addr).is_ok() {
            return Ok(addr);
        }
    }
    Err(IoFault::Failed)
}

fn zeros(alloc: Global, len: usize) -> Result<Vec<u8>, Fail> {
    Ok(vec![in alloc; 0u8; len]?)
}

fn expect_failed<T: Drop>(rt: &impl Abort, outcome: Result<T, IoFault>) {
    assert!(rt; matches!(outcome, Err(IoFault::Failed)));
}

/// Reads at most eight bytes.
fn expect_read<L: Link>(rt: &impl Abort, link: &mut L, want: &[u8])
    requires { IsTrue (L.seen link.old).is_open }
    ensures { IsTrue (L.seen link.new).is_open }
{
    let mut into = [0u8; 8];
    let count = link.read(&mut into).expect(rt, "a read");
    assert_eq!(rt; &into[..count], want);
}

/// Sends a byte each 50 ms, and reads it at the other end: how many pass before a read fails.
fn pass_bytes<C: Clock, L: Link>(clock: &C, from: &mut L, to: &mut L) -> Result<u32, IoFault>
    requires from_open { IsTrue (L.seen from.old).is_open }
    requires to_open { IsTrue (L.seen to.old).is_open }
{
    let mut into = [0u8; 8];
    'bytes: for passed in 0..40 {
        thread::sleep(clock, Duration::from_millis(50));
        from.write(b"x")?;
        if to.read(&mut into).is_err() {
            return Ok(passed);
        }
    }
    Ok(40)
}

#[test]
fn bytes_pass_both_ways_to_their_end(rt: HostRuntime) -> Result<(), Fail> {
    let alloc = rt.alloc();
    let mut server = TcpNet::new(&rt, alloc);
    let mut client = TcpNet::new(&rt, alloc);
    let addr = listen_somewhere(alloc, &mut server)?;
    let faults = server.faults();
    client.connect(&addr)?;
    server.accept()?;
    client.write(b"hello")?;
    client.end()?;
    expect_read(&rt, &mut server, b"hello");
    expect_read(&rt, &mut server, b"");
    server.write(b"and you")?;
    server.end()?;
    expect_read(&rt, &mut client, b"and you");
    expect_read(&rt, &mut client, b"");
    assert_eq!(rt; server.faults(), faults);
    assert_eq!(rt; client.faults(), 0);
    Ok(())
}

/// Reads to the end of input: how many bytes came.
fn count_to_end<L: Link>(link: &mut L) -> Result<usize, IoFault>
    requires { IsTrue (L.seen link.old).is_open }
{
    let mut into = [0u8; 1024];
    let mut total: usize = 0;
    'pieces: for _ in 0..100_000 {
        let count = link.read(&mut into)?;
        if count == 0 {
            return Ok(total);
        }
        total = total.saturating_add(count);
    }
    Ok(total)
}

// The first session ends with bytes unread, and while more was written than the peer's system holds at once. A reset would
// lose the rest of it. The next session begins at the same listener.
#[test]
fn what_was_written_last_outlives_bytes_left_unread(rt: HostRuntime) -> Result<(), Fail> {
    let alloc = rt.alloc();
    let mut server = TcpNet::with_limits(&rt, alloc, short());
    let mut first = TcpNet::new(&rt, alloc);
    let mut second = TcpNet::new(&rt, alloc);
    let addr = listen_somewhere(alloc, &mut server)?;
    let bytes = zeros(alloc, 300_000)?;
    first.connect(&addr)?;
    second.connect(&addr)?;
    server.accept()?;
    first.write(&[7u8; 5000])?;
    first.end()?;
    server.write(&bytes)?;
    server.end()?;
    server.accept()?;
    assert_eq!(rt; count_to_end(&mut first)?, 300_000);
    second.write(b"hello")?;
    expect_read(&rt, &mut server, b"hello");
    Ok(())
}

#[test]
fn a_silent_peer_is_waited_for_no_longer_than_the_limit(rt: HostRuntime) -> Result<(), Fail> {
    let alloc = rt.alloc();
    let mut server = TcpNet::with_limits(&rt, alloc, short());
    let mut client = TcpNet::new(&rt, alloc);
    let addr = listen_somewhere(alloc, &mut server)?;
    let faults = server.faults();
    client.connect(&addr)?;
    server.accept()?;
    expect_failed(&rt, server.read(&mut [0u8; 8]));
    assert_eq!(rt; server.faults(), faults.saturating_add(1));
    Ok(())
}

#[test]
fn a_peer_that_sends_now_and_then_is_let_go_of(rt: HostRuntime) -> Result<(), Fail> {
    let alloc = rt.alloc();
    let mut server = TcpNet::with_limits(&rt, alloc, short());
    let mut client = TcpNet::new(&rt, alloc);
    let addr = listen_somewhere(alloc, &mut server)?;
    client.connect(&addr)?;
    server.accept()?;
    let passed = pass_bytes(&rt, &mut client, &mut server)?;
    assert!(rt; 0 < passed && passed < 40);
    Ok(())
}

#[test]
fn a_peer_that_takes_nothing_is_let_go_of(rt: HostRuntime) -> Result<(), Fail> {
    let alloc = rt.alloc();
    let mut server = TcpNet::with_limits(&rt, alloc, short());
    let mut client = TcpNet::new(&rt, alloc);
    let addr = listen_somewhere(alloc, &mut server)?;
    // more than two systems hold for a peer that reads nothing
    let bytes = zeros(alloc, 1 << 25)?;
    client.connect(&addr)?;
    server.accept()?;
    expect_failed(&rt, server.write(&bytes));
    Ok(())
}

#[test]
fn the_systems_refusals_of_connections_are_counted(rt: HostRuntime) -> Result<(), Fail> {
    let mut net = TcpNet::new(&rt, rt.alloc());
    expect_failed(&rt, net.accept());
    expect_failed(&rt, net.listen("no address"));
    expect_failed(&rt, net.listen("127.0.0.1:70000"));
    expect_failed(&rt, net.connect("127.0.0.1:1"));
    assert_eq!(rt; net.faults(), 4);
    Ok(())
}
