ghost use Rattle.std.specs.Prelude.{◌≡◌, ◌++◌, ◌/◌, true, [], Err, take, length};
ghost use Rattle.pir_io.specs.declared.fault.IoFault.TheVariants.{Failed};
ghost use Rattle.pir_io.specs.Sink.{Puts};
ghost use Rattle.pir_io.specs.Plan.{FailsExactly, is_listed};
ghost use Rattle.pir_io.specs.MemSink.{mem_sink_seen, mem_sink_plan};

use crate::plan::Plan;
use crate::{IoFault, Sink};
use std::alloc::Global;

/// A sink in memory whose listed calls fail.
#[derive(Drop)]
pub struct MemSink {
    bytes: Vec<u8>,
    plan: Plan,
}

impl MemSink {
    /// An empty sink. `fail` has the numbers of the calls that are to fail, counted from 0.
    pub fn new(alloc: Global, fail: Vec<u64>) -> Self
        ensures seen { mem_sink_seen result ≡ record { tells = true; bytes = []; faults = 0 } }
        ensures plan { mem_sink_plan result ≡ record { fail = fail.items; calls = 0 } }
    {
        MemSink {
            bytes: Vec::new(alloc),
            plan: Plan::new(fail),
        }
    }

    /// What was put so far.
    pub fn bytes(&self) -> &[u8]
        ensures { result.now ≡ (mem_sink_seen self.now).bytes }
    {
        &self.bytes
    }
}

impl Sink for MemSink {
    ghost seen = { mem_sink_seen };

    /// A call that fails has put the first half.
    fn put(&mut self, bytes: &[u8]) -> Result<(), IoFault>
        ensures puts { Puts (mem_sink_seen self.old) (mem_sink_seen self.new) bytes.now result }
        ensures exact { FailsExactly (mem_sink_plan self.old) (mem_sink_plan self.new) (is_listed (mem_sink_plan self.old)) result }
        ensures half { result ≡ Err Failed → (mem_sink_seen self.new).bytes ≡ (mem_sink_seen self.old).bytes ++ take (length bytes.now / 2) bytes.now }
    {
        if self.plan.is_next_listed() {
            self.bytes.extend_from_slice(&bytes[..bytes.len() / 2])?;
            self.plan.count_failure();
            return Err(IoFault::Failed);
        }
        self.bytes.extend_from_slice(bytes)?;
        self.plan.count_success();
        Ok(())
    }
}
