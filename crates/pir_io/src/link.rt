ghost use Rattle.std.specs.Prelude.{IsTrue, Some, false, ◌≡◌};
ghost use Rattle.pir_io.specs.Link.{LinkSeen, ReadsLink, WritesLink, EndsLink, connecting, accepting};
ghost use Rattle.pir_io.specs.Net.{Begins, Listens, IsFresh, log_of};

use crate::IoFault;

/// A stream of bytes to a peer and one from it. Its calls want the link open.
pub trait Link {
    /// What is seen of the object.
    ghost seen: { Self → LinkSeen };

    /// Puts at most `into.len()` bytes from the peer into the front of `into`, and answers how many. 0 into a
    /// slice that isn't empty is the end of input. Where memory was wanting, `into` is as it was.
    fn read(&mut self, into: &mut [u8]) -> Result<usize, IoFault>
        requires { IsTrue (seen self.old).is_open }
        ensures { ReadsLink (seen self.old) (seen self.new) into.old into.new result };

    /// Writes all the bytes.
    fn write(&mut self, bytes: &[u8]) -> Result<(), IoFault>
        requires { IsTrue (seen self.old).is_open }
        ensures { WritesLink (seen self.old) (seen self.new) bytes.now result };

    /// Closes the writing side.
    fn end(&mut self) -> Result<(), IoFault>
        requires { IsTrue (seen self.old).is_open }
        ensures { EndsLink (seen self.old) (seen self.new) result };
}

/// A link whose sessions are started one after another. It is open exactly while a session is at hand.
pub trait Net: Link {
    /// Takes the address for the sessions that `accept` starts.
    fn listen(&mut self, addr: &str) -> Result<(), IoFault>
        ensures { Listens (Self.seen self.old) (Self.seen self.new) addr.now result };

    /// Starts a session with the peer at the address.
    fn connect(&mut self, addr: &str) -> Result<(), IoFault>
        ensures { Begins (Self.seen self.old) (Self.seen self.new) connecting (Some addr.now) result };

    /// Starts a session with the next peer that comes.
    fn accept(&mut self) -> Result<(), IoFault>
        ensures { Begins (Self.seen self.old) (Self.seen self.new) accepting (log_of (Self.seen self.old)).addr result };

    /// While no session is at hand, no byte was read or written, and neither side has ended.
    ghost idle: { (x : Self) → IsTrue (Self.seen x).tells → (Self.seen x).is_open ≡ false → IsFresh (Self.seen x) };
}
