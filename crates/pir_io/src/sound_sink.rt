ghost use Rattle.std.specs.Prelude.{◌≡◌, true, []};
ghost use Rattle.pir_io.specs.MemSink.{sound_sink_seen};

use crate::{IoFault, Sink};
use std::alloc::Global;

/// A sink in memory that never fails.
#[derive(Drop)]
pub struct SoundSink {
    bytes: Vec<u8>,
}

impl SoundSink {
    /// An empty sink.
    pub fn new(alloc: Global) -> Self
        ensures { sound_sink_seen result ≡ record { tells = true; bytes = []; faults = 0 } }
    {
        SoundSink {
            bytes: Vec::new(alloc),
        }
    }

    /// What was put so far.
    pub fn bytes(&self) -> &[u8]
        ensures { result.now ≡ (sound_sink_seen self.now).bytes }
    {
        &self.bytes
    }
}

impl Sink for SoundSink {
    ghost seen = { sound_sink_seen };

    fn put(&mut self, bytes: &[u8]) -> Result<(), IoFault> {
        Ok(self.bytes.extend_from_slice(bytes)?)
    }
}
