ghost use Rattle.pir_io.specs.Files.{FilesSeen, ReadsAt, Creates, AppendsTo};

use crate::IoFault;

/// Named files: a map from names to bytes. A name that isn't there reads as empty, or its read fails.
///
/// Contents are spoken of only where the object tells them; the count of faults is told by every object.
pub trait Files {
    /// What is seen of the object.
    ghost seen: { Self → FilesSeen };

    /// Puts at most `into.len()` bytes of the content from `place` into the front of `into`, and answers how
    /// many: at least one where `into` has room and `place` is before the end, 0 at the end or past it. Where memory
    /// was wanting, `into` is as it was.
    fn read_at(&mut self, name: &str, place: u64, into: &mut [u8]) -> Result<usize, IoFault>
        ensures { ReadsAt (seen self.old) (seen self.new) name.now place into.old into.new result };

    /// Leaves the name with no bytes.
    fn create(&mut self, name: &str) -> Result<(), IoFault>
        ensures { Creates (seen self.old) (seen self.new) name.now result };

    /// Adds the bytes at the name's end; makes a name that isn't there.
    fn append(&mut self, name: &str, bytes: &[u8]) -> Result<(), IoFault>
        ensures { AppendsTo (seen self.old) (seen self.new) name.now bytes.now result };
}
