//! A link and a net in memory whose listed calls fail.
ghost use Rattle.std.specs.Prelude.{IsTrue};

use pir_io::{IoFault, Link, MemLink, MemNet, Net};
use std::alloc::{AllocError, Global};
use std::process::Abort;
use std::test::Fail;

fn expect_failed<T: Drop>(rt: &impl Abort, outcome: Result<T, IoFault>) {
    assert!(rt; matches!(outcome, Err(IoFault::Failed)));
}

/// Reads into four bytes.
fn expect_read<L: Link>(rt: &impl Abort, link: &mut L, want: &[u8])
    requires { IsTrue (L.seen link.old).is_open }
    ensures { IsTrue (L.seen link.new).is_open }
{
    let mut into = [0u8; 4];
    let count = link.read(&mut into).expect(rt, "a read");
    assert_eq!(rt; &into[..count], want);
}

fn expect_wrote(rt: &impl Abort, net: &MemNet, session: usize, want: &[u8]) {
    let bytes = net.wrote(session).expect(rt, "a session");
    assert_eq!(rt; bytes, want);
}

/// A net with two inputs, of which a read gives three bytes at most.
fn net_of(alloc: Global, first: &[u8], second: &[u8], fail: &[u64]) -> Result<MemNet, AllocError> {
    let mut inputs = Vec::new(alloc);
    inputs.push(first.to_vec(alloc)?)?;
    inputs.push(second.to_vec(alloc)?)?;
    Ok(MemNet::new(alloc, inputs, 3, fail.to_vec(alloc)?))
}

// Call 1 fails, and the read after it goes on where the one before it ended.
#[test]
fn a_link_in_memory_reads_its_input(rt: HostRuntime) -> Result<(), Fail> {
    let alloc = rt.alloc();
    let input = b"hello".to_vec(alloc)?;
    let mut link = MemLink::new(alloc, input, 3, [1u64].to_vec(alloc)?);
    expect_read(&rt, &mut link, b"hel");
    expect_failed(&rt, link.read(&mut [0u8; 4]));
    expect_read(&rt, &mut link, b"lo");
    expect_read(&rt, &mut link, b"");
    Ok(())
}

// Calls 1 and 2 fail: of "efgh" the half is written.
#[test]
fn a_link_in_memory_keeps_what_is_written(rt: HostRuntime) -> Result<(), Fail> {
    let alloc = rt.alloc();
    let mut link = MemLink::new(alloc, Vec::new(alloc), 3, [1u64, 2].to_vec(alloc)?);
    link.write(b"abcd")?;
    expect_failed(&rt, link.write(b"efgh"));
    expect_failed(&rt, link.end());
    link.end()?;
    assert_eq!(rt; link.wrote(), b"abcdef".as_slice());
    Ok(())
}

// Calls 0 and 3 fail.
#[test]
fn a_failing_net_reads_on_after_a_failure(rt: HostRuntime) -> Result<(), Fail> {
    let alloc = rt.alloc();
    let mut net = net_of(alloc, b"hello", b"you", &[0, 3])?;
    expect_failed(&rt, net.listen("here"));
    net.accept()?;
    expect_read(&rt, &mut net, b"hel");
    expect_failed(&rt, net.read(&mut [0u8; 4]));
    expect_read(&rt, &mut net, b"lo");
    net.accept()?;
    expect_read(&rt, &mut net, b"you");
    Ok(())
}

// Calls 2 and 3 fail: of "cdef" the half is written.
#[test]
fn a_failing_net_keeps_what_is_written(rt: HostRuntime) -> Result<(), Fail> {
    let alloc = rt.alloc();
    let mut net = net_of(alloc, b"", b"", &[2, 3])?;
    net.accept()?;
    net.write(b"ab")?;
    expect_failed(&rt, net.write(b"cdef"));
    expect_failed(&rt, net.end());
    net.end()?;
    net.connect("there")?;
    net.write(b"d")?;
    expect_wrote(&rt, &net, 0, b"abcd");
    expect_wrote(&rt, &net, 1, b"d");
    assert!(rt; net.wrote(2).is_none());
    Ok(())
}

// Call 0 fails and uses up no input; a third session would have none.
#[test]
fn a_failing_net_starts_a_session_for_each_input(rt: HostRuntime) -> Result<(), Fail> {
    let alloc = rt.alloc();
    let mut net = net_of(alloc, b"one", b"two", &[0])?;
    expect_failed(&rt, net.connect("there"));
    assert!(rt; net.wrote(0).is_none());
    net.connect("there")?;
    expect_read(&rt, &mut net, b"one");
    net.accept()?;
    expect_read(&rt, &mut net, b"two");
    net.write(b"ab")?;
    expect_failed(&rt, net.accept());
    expect_wrote(&rt, &net, 1, b"ab");
    assert!(rt; net.wrote(2).is_none());
    Ok(())
}
