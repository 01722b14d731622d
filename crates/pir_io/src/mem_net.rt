ghost use Rattle.std.specs.Prelude.{◌≡◌, ◌++◌, ◌≤◌, ◌||◌, ◌/◌, IsTrue, Some, Ok, Err, OnErr, false, if◌then◌else◌, map, take, length, string_bytes};
ghost use Rattle.std.specs.Option.{option_copied, option_map, option_or};
ghost use Rattle.pir_io.specs.declared.fault.IoFault.TheVariants.{Failed};
ghost use Rattle.pir_io.specs.Link.{ReadsLink, WritesLink, EndsLink, connecting, accepting};
ghost use Rattle.pir_io.specs.Net.{Begins, Listens, log_of};
ghost use Rattle.pir_io.specs.NetPlan.{ReadsInput, written_in, unused_net};
ghost use Rattle.pir_io.specs.Plan.{FailsExactly, is_listed};
ghost use Rattle.pir_io.specs.PlannedCalls.{faults_after, none_left};
ghost use Rattle.pir_io.specs.Sessions.{start_by};
ghost use Rattle.pir_io.specs.MemNet.{mem_net_seen, mem_net_plan, mem_net_calls};

use crate::plan::Plan;
use crate::sessions::{Opening, Sessions};
use crate::{IoFault, Link, Net};
use std::alloc::Global;

/// A net in memory whose listed calls fail, and each call that would start a session beyond the last input. The peer of
/// session k sends input k; a call that fails has started no session and uses up no input. While no session is at hand,
/// it tells no bytes.
#[derive(Drop)]
pub struct MemNet {
    sessions: Sessions,
    plan: Plan,
}

impl MemNet {
    /// No session has begun. A read gives at most `piece` bytes. `fail` has the numbers of the calls that are to fail,
    /// counted from 0 over all calls of `Link` and `Net`.
    pub fn new(alloc: Global, inputs: Vec<Vec<u8>>, piece: usize, fail: Vec<u64>) -> Self
        requires { 1 ≤ piece }
        ensures seen { mem_net_seen result ≡ unused_net }
        ensures plan { mem_net_plan result ≡ record { inputs = map (λ input. input.items) inputs.items; piece = piece } }
        ensures calls { mem_net_calls result ≡ record { fail = fail.items; calls = 0 } }
    {
        MemNet {
            sessions: Sessions::new(alloc, inputs, piece),
            plan: Plan::new(fail),
        }
    }

    /// What was written in a session. None where it hasn't begun.
    pub fn wrote(&self, session: usize) -> Option<&[u8]>
        ensures { option_copied result ≡ written_in (mem_net_seen self.now) session }
    {
        self.sessions.wrote(session)
    }

    /// Begins a session; or fails, and then none is at hand. An address that is given takes the place of the one before.
    fn begin(&mut self, opening: Opening, addr: Option<String>) -> Result<(), IoFault>
        ensures begins { Begins (mem_net_seen self.old) (mem_net_seen self.new) (start_by opening) (option_map string_bytes (option_or addr self.old.sessions.addr)) result }
        ensures exact { FailsExactly (mem_net_calls self.old) (mem_net_calls self.new) (is_listed (mem_net_calls self.old) || none_left (mem_net_plan self.old) (mem_net_seen self.old)) result }
        ensures faults { (mem_net_seen self.new).faults ≡ faults_after (mem_net_seen self.old).faults result }
        ensures plan { mem_net_plan self.new ≡ mem_net_plan self.old }
    {
        let before = self.plan.faults;
        if self.plan.is_next_listed() || self.sessions.has_none_left() {
            self.sessions
                .begin(None, addr, before, before.saturating_add(1))?;
            self.plan.count_failure();
            return Err(IoFault::Failed);
        }
        self.sessions.begin(Some(opening), addr, before, before)?;
        self.plan.count_success();
        Ok(())
    }
}

impl Link for MemNet {
    ghost seen = { mem_net_seen };

    /// A call that fails has taken nothing, and left `into` as it was.
    fn read(&mut self, into: &mut [u8]) -> Result<usize, IoFault>
        requires { IsTrue (mem_net_seen self.old).is_open }
        ensures reads { ReadsLink (mem_net_seen self.old) (mem_net_seen self.new) into.old into.new result }
        ensures exact { is_listed (mem_net_calls self.old) ≡ false → ReadsInput (mem_net_plan self.old) (mem_net_seen self.old) into.new result }
        ensures listed { IsTrue (is_listed (mem_net_calls self.old)) → result ≡ Err Failed }
        ensures nothing { OnErr result (into.new ≡ into.old) }
        ensures calls { FailsExactly (mem_net_calls self.old) (mem_net_calls self.new) (is_listed (mem_net_calls self.old)) result }
        ensures faults { (mem_net_seen self.new).faults ≡ faults_after (mem_net_seen self.old).faults result }
        ensures plan { mem_net_plan self.new ≡ mem_net_plan self.old }
    {
        if self.plan.is_next_listed() {
            self.plan.count_failure();
            return Err(IoFault::Failed);
        }
        let count = self.sessions.read(into);
        self.plan.count_success();
        Ok(count)
    }

    /// A call that fails has written the first half.
    fn write(&mut self, bytes: &[u8]) -> Result<(), IoFault>
        requires { IsTrue (mem_net_seen self.old).is_open }
        ensures writes { WritesLink (mem_net_seen self.old) (mem_net_seen self.new) bytes.now result }
        ensures half { result ≡ Err Failed → (mem_net_seen self.new).wrote ≡ (mem_net_seen self.old).wrote ++ take (length bytes.now / 2) bytes.now }
        ensures calls { FailsExactly (mem_net_calls self.old) (mem_net_calls self.new) (is_listed (mem_net_calls self.old)) result }
        ensures faults { (mem_net_seen self.new).faults ≡ faults_after (mem_net_seen self.old).faults result }
        ensures plan { mem_net_plan self.new ≡ mem_net_plan self.old }
    {
        if self.plan.is_next_listed() {
            self.sessions
                .wrote
                .extend_from_slice(&bytes[..bytes.len() / 2])?;
            self.plan.count_failure();
            return Err(IoFault::Failed);
        }
        self.sessions.wrote.extend_from_slice(bytes)?;
        self.plan.count_success();
        Ok(())
    }

    /// A call that fails has changed nothing.
    fn end(&mut self) -> Result<(), IoFault>
        requires { IsTrue (mem_net_seen self.old).is_open }
        ensures ends { EndsLink (mem_net_seen self.old) (mem_net_seen self.new) result }
        ensures exact { result ≡ (if is_listed (mem_net_calls self.old) then Err Failed else Ok tt) }
        ensures calls { FailsExactly (mem_net_calls self.old) (mem_net_calls self.new) (is_listed (mem_net_calls self.old)) result }
        ensures faults { (mem_net_seen self.new).faults ≡ faults_after (mem_net_seen self.old).faults result }
        ensures plan { mem_net_plan self.new ≡ mem_net_plan self.old }
    {
        if self.plan.is_next_listed() {
            self.plan.count_failure();
            return Err(IoFault::Failed);
        }
        self.sessions.closed = true;
        self.plan.count_success();
        Ok(())
    }
}

impl Net for MemNet {
    ghost use Rattle.pir_io.specs.Sessions.{idle_is_fresh};

    ghost idle = { λ x _ none. idle_is_fresh x.plan.faults x.sessions none };

    /// A call that fails has taken the address.
    fn listen(&mut self, addr: &str) -> Result<(), IoFault>
        ensures listens { Listens (mem_net_seen self.old) (mem_net_seen self.new) addr.now result }
        ensures calls { FailsExactly (mem_net_calls self.old) (mem_net_calls self.new) (is_listed (mem_net_calls self.old)) result }
        ensures faults { (mem_net_seen self.new).faults ≡ faults_after (mem_net_seen self.old).faults result }
        ensures plan { mem_net_plan self.new ≡ mem_net_plan self.old }
    {
        self.sessions.addr = Some(String::from_str(self.sessions.alloc, addr)?);
        if self.plan.is_next_listed() {
            self.plan.count_failure();
            return Err(IoFault::Failed);
        }
        self.plan.count_success();
        Ok(())
    }

    fn connect(&mut self, addr: &str) -> Result<(), IoFault>
        ensures begins { Begins (mem_net_seen self.old) (mem_net_seen self.new) connecting (Some addr.now) result }
        ensures calls { FailsExactly (mem_net_calls self.old) (mem_net_calls self.new) (is_listed (mem_net_calls self.old) || none_left (mem_net_plan self.old) (mem_net_seen self.old)) result }
        ensures faults { (mem_net_seen self.new).faults ≡ faults_after (mem_net_seen self.old).faults result }
        ensures plan { mem_net_plan self.new ≡ mem_net_plan self.old }
    {
        let addr = String::from_str(self.sessions.alloc, addr)?;
        self.begin(Opening::Connect, Some(addr))
    }

    fn accept(&mut self) -> Result<(), IoFault>
        ensures begins { Begins (mem_net_seen self.old) (mem_net_seen self.new) accepting (log_of (mem_net_seen self.old)).addr result }
        ensures calls { FailsExactly (mem_net_calls self.old) (mem_net_calls self.new) (is_listed (mem_net_calls self.old) || none_left (mem_net_plan self.old) (mem_net_seen self.old)) result }
        ensures faults { (mem_net_seen self.new).faults ≡ faults_after (mem_net_seen self.old).faults result }
        ensures plan { mem_net_plan self.new ≡ mem_net_plan self.old }
    {
        self.begin(Opening::Accept, None)
    }
}
