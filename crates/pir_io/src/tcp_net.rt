ghost use Rattle.std.specs.Prelude.{◌≡◌, false, IfOk, IfSome, IsSome};
ghost use Rattle.pir_io.specs.Host.{tcp_net_seen, AreUsual};

use crate::connection::Connection;
use crate::count::count_fault;
use crate::{IoFault, Link, Net};
use std::alloc::Global;
use std::io::ErrorKind;
use std::net::{OpenListener, TcpListener, TcpStream, ToSocketAddrs};
use std::time::{Clock, Duration, Instant};
use std::{io, net};

/// How long a `TcpNet` waits for a peer. A call that would wait longer fails.
#[derive(Clone, Copy)]
pub struct Limits {
    /// The longest wait for a silent peer on a connection that was accepted. By default 60 s: a server that works on one
    /// client after the other is held up no longer by one that has gone.
    pub accepted_silence: Duration,
    /// The longest that a session that was accepted may last, from `accept` on. By default 600 s: a peer that sends or takes
    /// a byte now and then holds up a server no longer.
    pub accepted_session: Duration,
    /// The longest wait for a silent peer on a connection that `connect` made, and for each of its addresses to answer. By
    /// default 600 s, since a server works on others first. Such a session may last without end.
    pub own_silence: Duration,
}

impl Default for Limits {
    ghost is_default = { AreUsual };

    /// 60 s, 600 s and 600 s.
    fn default() -> Limits {
        Limits {
            accepted_silence: Duration::from_secs(60),
            accepted_session: Duration::from_secs(600),
            own_silence: Duration::from_secs(600),
        }
    }
}

/// The system's TCP connections. It tells no bytes, and is open while a connection is at hand.
///
/// Each address is text: an IP address or a host's name, a colon and a port. `connect` and `accept` first put away the
/// connection at hand, where there is one, and so does the value when it is dropped (`Connection::close`). `end` itself
/// waits for nobody, and what the peer sends can be read after it.
pub struct TcpNet<R: net::Net + Clock> {
    rt: R,
    alloc: Global,
    limits: Limits,
    listener: Option<R::Listener>,
    connection: Option<Connection<R::Stream>>,
    faults: u64,
}

impl<R: net::Net + Clock + Drop> Drop for TcpNet<R> {
    fn drop(self) {
        let Self {
            rt,
            alloc: _,
            limits: _,
            listener: _,
            connection,
            faults: _,
        } = self;
        if let Some(connection) = connection {
            connection.close(&rt);
        }
    }
}

impl<R: net::Net + Clock> TcpNet<R> {
    /// No session has begun, nothing listens, and no call has failed yet. The limits are the default ones.
    pub fn new(rt: R, alloc: Global) -> Self
        ensures faults { (tcp_net_seen result).faults ≡ 0 }
        ensures idle { (tcp_net_seen result).is_open ≡ false }
        ensures limits { AreUsual result.limits }
    {
        Self::with_limits(rt, alloc, Limits::default())
    }

    /// The same with other limits. Where a limit is 0, each call that would wait by it fails.
    pub fn with_limits(rt: R, alloc: Global, limits: Limits) -> Self
        ensures faults { (tcp_net_seen result).faults ≡ 0 }
        ensures idle { (tcp_net_seen result).is_open ≡ false }
        ensures limits { result.limits ≡ limits }
    {
        TcpNet {
            rt,
            alloc,
            limits,
            listener: None,
            connection: None,
            faults: 0,
        }
    }

    /// How many calls have failed.
    pub fn faults(&self) -> u64
        ensures { result ≡ (tcp_net_seen self.now).faults }
    {
        self.faults
    }

    /// Closes the connection at hand, where there is one.
    fn put_away(&mut self)
        ensures { self.new ≡ record self.old { connection = None } }
    {
        if let Some(connection) = self.connection.take() {
            connection.close(&self.rt);
        }
    }
}

impl<R: net::Net + Clock> Link for TcpNet<R> {
    ghost seen = { tcp_net_seen };

    fn read(&mut self, into: &mut [u8]) -> Result<usize, IoFault> {
        let outcome = match &mut self.connection {
            Some(connection) => connection.read(&self.rt, into),
            None => Err(io::Error::from(ErrorKind::NotConnected)),
        };
        count_fault(&mut self.faults, outcome)
    }

    fn write(&mut self, bytes: &[u8]) -> Result<(), IoFault> {
        let outcome = match &mut self.connection {
            Some(connection) => connection.write(&self.rt, bytes),
            None => Err(io::Error::from(ErrorKind::NotConnected)),
        };
        count_fault(&mut self.faults, outcome)
    }

    fn end(&mut self) -> Result<(), IoFault> {
        let outcome = match &mut self.connection {
            Some(connection) => connection.end(),
            None => Err(io::Error::from(ErrorKind::NotConnected)),
        };
        count_fault(&mut self.faults, outcome)
    }
}

impl<R: net::Net + Clock> Net for TcpNet<R> {
    ghost use Rattle.pir_io.specs.Host.{tcp_net_is_fresh};

    ghost idle = { λ x _ _. tcp_net_is_fresh x };

    /// The listener before is let go of first, so that its address is free again.
    fn listen(&mut self, addr: &str) -> Result<(), IoFault> {
        self.listener = None;
        let outcome = TcpListener::bind(&self.rt, addr);
        self.listener = Some(count_fault(&mut self.faults, outcome)?);
        Ok(())
    }

    fn connect(&mut self, addr: &str) -> Result<(), IoFault> {
        self.put_away();
        let outcome = connect_to(&self.rt, addr, self.limits.own_silence);
        let stream = count_fault(&mut self.faults, outcome)?;
        self.connection = Some(Connection::own(stream, self.limits.own_silence));
        Ok(())
    }

    /// Where nothing listens, it fails.
    fn accept(&mut self) -> Result<(), IoFault> {
        self.put_away();
        let outcome = match &self.listener {
            Some(listener) => accept_from(&self.rt, listener, self.limits),
            None => Err(io::Error::from(ErrorKind::NotConnected)),
        };
        self.connection = Some(count_fault(&mut self.faults, outcome)?);
        Ok(())
    }
}

/// A connection to the first of the addresses that answers in time; each is tried in turn.
fn connect_to<R: net::Net>(rt: &R, addr: &str, silence: Duration) -> io::Result<R::Stream> {
    let mut last = io::Error::from(ErrorKind::InvalidInput);
    for addr in addr.to_socket_addrs(rt)? {
        match TcpStream::connect_timeout(rt, &addr, silence) {
            Ok(stream) => return Ok(stream),
            Err(error) => last = error,
        }
    }
    Err(last)
}

/// The next connection that comes, however long that takes. One that was given up before it was accepted is passed over.
fn accept_from<R: net::Net + Clock>(
    rt: &R,
    listener: &R::Listener,
    limits: Limits,
) -> io::Result<Connection<R::Stream>>
    ensures silence { IfOk result (λ connection. connection.silence ≡ limits.accepted_silence) }
    ensures session { IfOk result (λ connection. IsSome connection.term) }
    ensures length { IfOk result (λ connection. IfSome connection.term (λ term. term.length ≡ limits.accepted_session)) }
{
    'turns: for _ in 0..u64::MAX {
        match listener.accept() {
            Ok((stream, _)) => {
                let (silence, length) = (limits.accepted_silence, limits.accepted_session);
                let start = Instant::now(rt)?;
                return Ok(Connection::accepted(stream, silence, start, length));
            }
            Err(error) if error.kind() == ErrorKind::ConnectionAborted => {}
            Err(error) => return Err(error),
        }
    }
    Err(io::Error::from(ErrorKind::TimedOut))
}
