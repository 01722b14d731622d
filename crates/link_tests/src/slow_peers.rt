//! Limits of time, by a clock in memory: over peers that take and give a byte at a time.
use pir_io::{IoFault, Link, Net, TcpNet};
use std::cell::Cell;
use std::io::{Read, Write};
use std::net::{Ipv4Addr, OpenListener, OpenStream, Shutdown, SocketAddr, SocketAddrV4};
use std::os::fd::{AsRawFd, RawFd};
use std::test::Fail;
use std::time::{Clock, Duration};
use std::{io, net};

/// Connections to peers that take and give a byte at a time; the clock runs on by a second at each look at it.
#[derive(Drop)]
struct SlowNet {
    seconds: Cell<u64>,
}

#[derive(Drop)]
struct SlowStream;

#[derive(Drop)]
struct SlowListener;

impl Clock for SlowNet {
    fn monotonic(&self) -> io::Result<Duration> {
        let seconds = self.seconds.get().saturating_add(1);
        self.seconds.set(seconds);
        Ok(Duration::from_secs(seconds))
    }

    fn since_1970(&self) -> io::Result<Duration> {
        self.monotonic()
    }
}

impl Read for SlowStream {
    fn read(&mut self, into: &mut [u8]) -> io::Result<usize> {
        Ok(into.len().min(1))
    }
}

impl Write for SlowStream {
    fn write(&mut self, bytes: &[u8]) -> io::Result<usize> {
        Ok(bytes.len().min(1))
    }

    fn flush(&mut self) -> io::Result<()> {
        Ok(())
    }
}

impl OpenStream for SlowStream {
    fn shutdown(&self, _how: Shutdown) -> io::Result<()> {
        Ok(())
    }

    fn set_read_timeout(&self, _wait: Option<Duration>) -> io::Result<()> {
        Ok(())
    }

    fn set_write_timeout(&self, _wait: Option<Duration>) -> io::Result<()> {
        Ok(())
    }
}

impl AsRawFd for SlowStream {
    fn as_raw_fd(&self) -> RawFd {
        -1
    }
}

impl AsRawFd for SlowListener {
    fn as_raw_fd(&self) -> RawFd {
        -1
    }
}

impl OpenListener for SlowListener {
    type Stream = SlowStream;

    fn accept(&self) -> io::Result<(SlowStream, SocketAddr)> {
        let addr = SocketAddr::V4(SocketAddrV4::new(Ipv4Addr::LOCALHOST, 1));
        Ok((SlowStream, addr))
    }
}

impl net::Net for SlowNet {
    type Stream = SlowStream;

    type Listener = SlowListener;

    fn bind(&self, _addr: SocketAddr) -> io::Result<SlowListener> {
        Ok(SlowListener)
    }

    fn connect(&self, _addr: SocketAddr) -> io::Result<SlowStream> {
        Ok(SlowStream)
    }

    fn connect_timeout(&self, _addr: SocketAddr, _wait: Duration) -> io::Result<SlowStream> {
        Ok(SlowStream)
    }
}

// The clock stands at 1 s when a session begins and at k + 1 s at wait k, so 599 waits are allowed in 600 s.
#[test]
fn a_session_ends_amid_a_write_when_its_time_is_over(rt: HostRuntime) -> Result<(), Fail> {
    let slow = SlowNet {
        seconds: Cell::new(0),
    };
    let mut net = TcpNet::new(&slow, rt.alloc());
    net.listen("127.0.0.1:1")?;
    net.accept()?;
    net.write(&[7u8; 599])?;
    assert!(rt; matches!(net.write(b"x"), Err(IoFault::Failed)));
    net.accept()?;
    assert!(rt; matches!(net.write(&[7u8; 600]), Err(IoFault::Failed)));
    net.connect("127.0.0.1:1")?;
    net.write(&[7u8; 2000])?;
    assert_eq!(rt; net.read(&mut [0u8; 8])?, 1);
    assert_eq!(rt; net.faults(), 2);
    Ok(())
}
