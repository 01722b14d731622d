ghost use Rattle.std.specs.Prelude.{◌≡◌, ◌<◌, ◌≤◌, ◌-◌, ◌||◌, min, is_ok, is_err, false, None, Some, IfOk, IfSome, OnOk};
ghost use Rattle.std.specs.Duration.{as_nanos};
ghost use Rattle.std.specs.Time.{instant_nanos};
ghost use Rattle.std.specs.Io.{ReadsAtMost};
ghost use Rattle.std.specs.Io.KnownBytes.{Appends, ReadConsumes};

use std::io;
use std::io::{ErrorKind, Read, Write};
use std::net::{OpenStream, Shutdown};
use std::time::{Clock, Duration, Instant};

/// The most bytes that are read and dropped before a connection is closed, 16 MiB: more than a client sends for one
/// look-up, and few enough that a peer that sends on and on is soon let go of.
const MOST_DRAINED: usize = 16_777_216;

/// When a session began, and how long it may last.
#[derive(Clone, Copy)]
struct Term {
    start: Instant,
    length: Duration,
}

/// A connection, and how long its peer is waited for.
#[derive(Drop)]
pub(crate) struct Connection<S> {
    stream: S,
    // the longest wait for a silent peer
    silence: Duration,
    // None of a connection that was made by a call to the peer: it may last without end
    term: Option<Term>,
    // whether its writing side was closed, and whether a read or a write on it failed
    ended: bool,
    failed: bool,
}

impl<S: Read + Write + OpenStream + Drop> Connection<S> {
    /// A connection that was made by a call to the peer: no wait is longer than the silence.
    pub(crate) fn own(stream: S, silence: Duration) -> Self
        ensures { result ≡ record { stream = stream; silence = silence; term = None; ended = false; failed = false } }
    {
        Connection {
            stream,
            silence,
            term: None,
            ended: false,
            failed: false,
        }
    }

    /// A connection that was accepted at this time: no wait is longer than the silence, and none goes on when the session
    /// has lasted so long.
    pub(crate) fn accepted(stream: S, silence: Duration, start: Instant, length: Duration) -> Self
        ensures { result ≡ record {
          stream = stream;
          silence = silence;
          term = Some (record { start = start; length = length });
          ended = false;
          failed = false;
        } }
    {
        Connection {
            stream,
            silence,
            term: Some(Term { start, length }),
            ended: false,
            failed: false,
        }
    }

    /// How long a wait that begins at this time may last: no longer than a silence, and no longer than what is left of the
    /// session.
    fn wait_from(&self, now: Instant) -> Duration
        ensures own { self.now.term ≡ None → result ≡ self.now.silence }
        ensures accepted { IfSome self.now.term (λ term. as_nanos result
            ≡ min (as_nanos self.now.silence) (as_nanos term.length - (instant_nanos now - instant_nanos term.start))) }
    {
        let Some(term) = self.term else {
            return self.silence;
        };
        let left = term.length.saturating_sub(now.duration_since(term.start));
        if left < self.silence {
            left
        } else {
            self.silence
        }
    }

    /// How long the next wait may last. An error where nothing is left.
    fn next_wait<C: Clock>(&self, clock: &C) -> io::Result<Duration>
        ensures some { IfOk result (λ wait. 0 < as_nanos wait) }
        ensures silence { IfOk result (λ wait. as_nanos wait ≤ as_nanos self.now.silence) }
        ensures session { IfOk result (λ wait. IfSome self.now.term (λ term. as_nanos wait ≤ as_nanos term.length)) }
    {
        let wait = self.wait_from(Instant::now(clock)?);
        if wait.is_zero() {
            return Err(io::Error::from(ErrorKind::TimedOut));
        }
        Ok(wait)
    }

    /// One read, again where a signal interrupts it. Into no room it reads nothing, at once.
    fn read_once<C: Clock>(&mut self, clock: &C, into: &mut [u8]) -> io::Result<usize>
        ensures bound { ReadsAtMost result into.new }
        ensures bytes { ReadConsumes (S.Read.remaining self.old.stream) (S.Read.remaining self.new.stream) result into.new }
        ensures others { self.new ≡ record self.old { stream = self.new.stream } }
    {
        if into.is_empty() {
            return Ok(0);
        }
        'turns: for _ in 0..u64::MAX {
            let wait = self.next_wait(clock)?;
            self.stream.set_read_timeout(Some(wait))?;
            match self.stream.read(into) {
                Ok(count) => return Ok(count),
                Err(error) if error.kind() == ErrorKind::Interrupted => {}
                Err(error) => return Err(error),
            }
        }
        Err(io::Error::from(ErrorKind::TimedOut))
    }

    /// Writes all the bytes. The limits hold for each part that the system takes, so a peer that takes a byte now and then
    /// doesn't hold it up for longer. A write that takes nothing is a failure.
    fn write_whole<C: Clock>(&mut self, clock: &C, bytes: &[u8]) -> io::Result<()>
        ensures bytes { OnOk result (Appends (S.Write.contents self.old.stream) (S.Write.contents self.new.stream) bytes.now) }
        ensures others { self.new ≡ record self.old { stream = self.new.stream } }
    {
        let mut rest = bytes;
        'turns: for _ in 0..u64::MAX {
            if rest.is_empty() {
                return Ok(());
            }
            let wait = self.next_wait(clock)?;
            self.stream.set_write_timeout(Some(wait))?;
            match self.stream.write(rest) {
                Ok(0) => return Err(io::Error::from(ErrorKind::WriteZero)),
                Ok(count) => rest = &rest[count..],
                Err(error) if error.kind() == ErrorKind::Interrupted => {}
                Err(error) => return Err(error),
            }
        }
        Err(io::Error::from(ErrorKind::TimedOut))
    }

    /// Reads what has come, or waits for it within the limits.
    pub(crate) fn read<C: Clock>(&mut self, clock: &C, into: &mut [u8]) -> io::Result<usize>
        ensures bound { ReadsAtMost result into.new }
        ensures bytes { ReadConsumes (S.Read.remaining self.old.stream) (S.Read.remaining self.new.stream) result into.new }
        ensures others { self.new ≡ record self.old { stream = self.new.stream; failed = self.old.failed || is_err result } }
    {
        let outcome = self.read_once(clock, into);
        self.failed = self.failed || outcome.is_err();
        outcome
    }

    /// Writes all the bytes within the limits.
    pub(crate) fn write<C: Clock>(&mut self, clock: &C, bytes: &[u8]) -> io::Result<()>
        ensures bytes { OnOk result (Appends (S.Write.contents self.old.stream) (S.Write.contents self.new.stream) bytes.now) }
        ensures others { self.new ≡ record self.old { stream = self.new.stream; failed = self.old.failed || is_err result } }
    {
        let outcome = self.write_whole(clock, bytes);
        self.failed = self.failed || outcome.is_err();
        outcome
    }

    /// Closes the writing side.
    pub(crate) fn end(&mut self) -> io::Result<()>
        ensures { self.new ≡ record self.old { ended = self.old.ended || is_ok result } }
    {
        self.stream.shutdown(Shutdown::Write)?;
        self.ended = true;
        Ok(())
    }

    /// Closes the connection. An accepted one whose writing side was closed is read on first, unless a call on it failed.
    ///
    /// The system resets a connection that is closed while bytes of the peer lie unread, and the peer may then lose what was
    /// written last, as the reason why it was refused. So these bytes are read and dropped until the peer's end comes: at
    /// most `MOST_DRAINED`, within the limits of the connection. What fails then is no fault of a call.
    pub(crate) fn close<C: Clock>(mut self, clock: &C) {
        if self.term.is_some() && self.ended && !self.failed {
            self.drain(clock);
        }
    }

    /// Reads and drops what comes, until the peer's end, a failure or the bound.
    fn drain<C: Clock>(&mut self, clock: &C) {
        let mut buffer = [0u8; 4096];
        let mut drained = 0;
        for _ in 0..MOST_DRAINED {
            if drained >= MOST_DRAINED {
                return;
            }
            match self.read(clock, &mut buffer) {
                Ok(0) | Err(_) => return,
                Ok(count) => drained += count,
            }
        }
    }
}
