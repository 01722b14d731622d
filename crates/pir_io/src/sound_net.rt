ghost use Rattle.std.specs.Prelude.{◌≡◌, ◌≤◌, IsTrue, IsOk, Some, map};
ghost use Rattle.std.specs.Option.{option_copied};
ghost use Rattle.pir_io.specs.Link.{ReadsLink, WritesLink, EndsLink, connecting, accepting};
ghost use Rattle.pir_io.specs.Net.{Begins, Listens, log_of};
ghost use Rattle.pir_io.specs.NetPlan.{ReadsInput, written_in, unused_net};
ghost use Rattle.pir_io.specs.SoundNet.{sound_net_seen, sound_net_plan};

use crate::sessions::{Opening, Sessions};
use crate::{IoFault, Link, Net};
use std::alloc::Global;

/// A net in memory that never fails. The peer of session k sends input k, and nothing past the last one. While no session
/// is at hand, it tells no bytes.
#[derive(Drop)]
pub struct SoundNet {
    sessions: Sessions,
}

impl SoundNet {
    /// No session has begun. A read gives at most `piece` bytes.
    pub fn new(alloc: Global, inputs: Vec<Vec<u8>>, piece: usize) -> Self
        requires { 1 ≤ piece }
        ensures seen { sound_net_seen result ≡ unused_net }
        ensures plan { sound_net_plan result ≡ record { inputs = map (λ input. input.items) inputs.items; piece = piece } }
    {
        SoundNet {
            sessions: Sessions::new(alloc, inputs, piece),
        }
    }

    /// What was written in a session. None where it hasn't begun.
    pub fn wrote(&self, session: usize) -> Option<&[u8]>
        ensures { option_copied result ≡ written_in (sound_net_seen self.now) session }
    {
        self.sessions.wrote(session)
    }
}

impl Link for SoundNet {
    ghost seen = { sound_net_seen };

    fn read(&mut self, into: &mut [u8]) -> Result<usize, IoFault>
        requires { IsTrue (sound_net_seen self.old).is_open }
        ensures reads { ReadsLink (sound_net_seen self.old) (sound_net_seen self.new) into.old into.new result }
        ensures exact { ReadsInput (sound_net_plan self.old) (sound_net_seen self.old) into.new result }
        ensures plan { sound_net_plan self.new ≡ sound_net_plan self.old }
    {
        let count = self.sessions.read(into);
        Ok(count)
    }

    fn write(&mut self, bytes: &[u8]) -> Result<(), IoFault>
        requires { IsTrue (sound_net_seen self.old).is_open }
        ensures writes { WritesLink (sound_net_seen self.old) (sound_net_seen self.new) bytes.now result }
        ensures plan { sound_net_plan self.new ≡ sound_net_plan self.old }
    {
        self.sessions.wrote.extend_from_slice(bytes)?;
        Ok(())
    }

    fn end(&mut self) -> Result<(), IoFault>
        requires { IsTrue (sound_net_seen self.old).is_open }
        ensures ends { EndsLink (sound_net_seen self.old) (sound_net_seen self.new) result }
        ensures always { IsOk result }
        ensures plan { sound_net_plan self.new ≡ sound_net_plan self.old }
    {
        self.sessions.closed = true;
        Ok(())
    }
}

impl Net for SoundNet {
    ghost use Rattle.pir_io.specs.Sessions.{idle_is_fresh};

    ghost idle = { λ x _ none. idle_is_fresh 0 x.sessions none };

    fn listen(&mut self, addr: &str) -> Result<(), IoFault>
        ensures listens { Listens (sound_net_seen self.old) (sound_net_seen self.new) addr.now result }
        ensures plan { sound_net_plan self.new ≡ sound_net_plan self.old }
    {
        self.sessions.addr = Some(String::from_str(self.sessions.alloc, addr)?);
        Ok(())
    }

    fn connect(&mut self, addr: &str) -> Result<(), IoFault>
        ensures begins { Begins (sound_net_seen self.old) (sound_net_seen self.new) connecting (Some addr.now) result }
        ensures plan { sound_net_plan self.new ≡ sound_net_plan self.old }
    {
        let addr = String::from_str(self.sessions.alloc, addr)?;
        self.sessions
            .begin(Some(Opening::Connect), Some(addr), 0, 0)?;
        Ok(())
    }

    fn accept(&mut self) -> Result<(), IoFault>
        ensures begins { Begins (sound_net_seen self.old) (sound_net_seen self.new) accepting (log_of (sound_net_seen self.old)).addr result }
        ensures plan { sound_net_plan self.new ≡ sound_net_plan self.old }
    {
        self.sessions.begin(Some(Opening::Accept), None, 0, 0)?;
        Ok(())
    }
}
