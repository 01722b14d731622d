ghost use Rattle.std.specs.Prelude.{◌≡◌};
ghost use Rattle.pir_io.specs.Host.{out_sink_seen};

use crate::count::count_fault;
use crate::{IoFault, Sink};
use std::alloc::Global;

/// Standard output. It tells no bytes.
///
/// It is made of the runtime and the allocator, as `HostFiles` is, and keeps both; a `put` takes no memory.
#[derive(Drop)]
pub struct OutSink<R> {
    rt: R,
    alloc: Global,
    faults: u64,
}

impl<R: Print> OutSink<R> {
    /// No call has failed yet.
    pub fn new(rt: R, alloc: Global) -> Self
        ensures { (out_sink_seen result).faults ≡ 0 }
    {
        OutSink {
            rt,
            alloc,
            faults: 0,
        }
    }

    /// How many calls have failed.
    pub fn faults(&self) -> u64
        ensures { result ≡ (out_sink_seen self.now).faults }
    {
        self.faults
    }
}

impl<R: Print> Sink for OutSink<R> {
    ghost seen = { out_sink_seen };

    /// The runtime holds nothing back: what it took has been written when it returns.
    fn put(&mut self, bytes: &[u8]) -> Result<(), IoFault> {
        let outcome = self.rt.write_all(bytes);
        count_fault(&mut self.faults, outcome)
    }
}
