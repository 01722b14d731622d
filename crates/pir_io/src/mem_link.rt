ghost use Rattle.std.specs.Prelude.{◌≡◌, ◌++◌, ◌≤◌, ◌/◌, ◌∷◌, [], IsTrue, Ok, Err, OnErr, false, if◌then◌else◌, take, length};
ghost use Rattle.pir_io.specs.declared.fault.IoFault.TheVariants.{Failed};
ghost use Rattle.pir_io.specs.Link.{ReadsLink, WritesLink, EndsLink};
ghost use Rattle.pir_io.specs.NetPlan.{ReadsInput};
ghost use Rattle.pir_io.specs.Plan.{FailsExactly, is_listed};
ghost use Rattle.pir_io.specs.PlannedCalls.{faults_after};
ghost use Rattle.pir_io.specs.MemLink.{mem_link_seen, mem_link_plan, mem_link_calls, unused_link};

use crate::peer_input::{ended_after, next_piece};
use crate::plan::Plan;
use crate::{IoFault, Link};
use std::alloc::Global;

/// A link in memory over one input, whose listed calls fail. It is always open.
#[derive(Drop)]
pub struct MemLink {
    input: Vec<u8>,
    piece: usize,
    read: usize,
    wrote: Vec<u8>,
    ended: bool,
    closed: bool,
    plan: Plan,
}

impl MemLink {
    /// Nothing was read or written yet. A read gives at most `piece` bytes of the input. `fail` has the numbers of the
    /// calls that are to fail, counted from 0 over all calls of `Link`.
    pub fn new(alloc: Global, input: Vec<u8>, piece: usize, fail: Vec<u64>) -> Self
        requires { 1 ≤ piece }
        ensures seen { mem_link_seen result ≡ unused_link }
        ensures plan { mem_link_plan result ≡ record { inputs = input.items ∷ []; piece = piece } }
        ensures calls { mem_link_calls result ≡ record { fail = fail.items; calls = 0 } }
    {
        MemLink {
            input,
            piece,
            read: 0,
            wrote: Vec::new(alloc),
            ended: false,
            closed: false,
            plan: Plan::new(fail),
        }
    }

    /// What was written so far.
    pub fn wrote(&self) -> &[u8]
        ensures { result.now ≡ (mem_link_seen self.now).wrote }
    {
        &self.wrote
    }
}

impl Link for MemLink {
    ghost seen = { mem_link_seen };

    /// A call that fails has taken nothing, and left `into` as it was.
    fn read(&mut self, into: &mut [u8]) -> Result<usize, IoFault>
        ensures reads { ReadsLink (mem_link_seen self.old) (mem_link_seen self.new) into.old into.new result }
        ensures exact { is_listed (mem_link_calls self.old) ≡ false → ReadsInput (mem_link_plan self.old) (mem_link_seen self.old) into.new result }
        ensures listed { IsTrue (is_listed (mem_link_calls self.old)) → result ≡ Err Failed }
        ensures nothing { OnErr result (into.new ≡ into.old) }
        ensures calls { FailsExactly (mem_link_calls self.old) (mem_link_calls self.new) (is_listed (mem_link_calls self.old)) result }
        ensures faults { (mem_link_seen self.new).faults ≡ faults_after (mem_link_seen self.old).faults result }
        ensures plan { mem_link_plan self.new ≡ mem_link_plan self.old }
    {
        if self.plan.is_next_listed() {
            self.plan.count_failure();
            return Err(IoFault::Failed);
        }
        let count = next_piece(&self.input, self.read, self.piece, into);
        self.read += count;
        self.ended = ended_after(self.ended, count, into.len());
        self.plan.count_success();
        Ok(count)
    }

    /// A call that fails has written the first half.
    fn write(&mut self, bytes: &[u8]) -> Result<(), IoFault>
        ensures writes { WritesLink (mem_link_seen self.old) (mem_link_seen self.new) bytes.now result }
        ensures half { result ≡ Err Failed → (mem_link_seen self.new).wrote ≡ (mem_link_seen self.old).wrote ++ take (length bytes.now / 2) bytes.now }
        ensures calls { FailsExactly (mem_link_calls self.old) (mem_link_calls self.new) (is_listed (mem_link_calls self.old)) result }
        ensures faults { (mem_link_seen self.new).faults ≡ faults_after (mem_link_seen self.old).faults result }
        ensures plan { mem_link_plan self.new ≡ mem_link_plan self.old }
    {
        if self.plan.is_next_listed() {
            self.wrote.extend_from_slice(&bytes[..bytes.len() / 2])?;
            self.plan.count_failure();
            return Err(IoFault::Failed);
        }
        self.wrote.extend_from_slice(bytes)?;
        self.plan.count_success();
        Ok(())
    }

    /// A call that fails has changed nothing.
    fn end(&mut self) -> Result<(), IoFault>
        ensures ends { EndsLink (mem_link_seen self.old) (mem_link_seen self.new) result }
        ensures exact { result ≡ (if is_listed (mem_link_calls self.old) then Err Failed else Ok tt) }
        ensures calls { FailsExactly (mem_link_calls self.old) (mem_link_calls self.new) (is_listed (mem_link_calls self.old)) result }
        ensures faults { (mem_link_seen self.new).faults ≡ faults_after (mem_link_seen self.old).faults result }
        ensures plan { mem_link_plan self.new ≡ mem_link_plan self.old }
    {
        if self.plan.is_next_listed() {
            self.plan.count_failure();
            return Err(IoFault::Failed);
        }
        self.closed = true;
        self.plan.count_success();
        Ok(())
    }
}
