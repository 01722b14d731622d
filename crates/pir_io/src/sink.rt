ghost use Rattle.pir_io.specs.Sink.{SinkSeen, Puts};

use crate::IoFault;

/// A sink for bytes, such as standard output.
pub trait Sink {
    /// What is seen of the object.
    ghost seen: { Self → SinkSeen };

    /// Puts the bytes behind those that were put before.
    fn put(&mut self, bytes: &[u8]) -> Result<(), IoFault>
        ensures { Puts (seen self.old) (seen self.new) bytes.now result };
}
