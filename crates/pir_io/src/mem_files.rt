ghost use Rattle.std.specs.Prelude.{◌≡◌, ◌++◌, ◌||◌, ◌/◌, IsTrue, Some, None, Err, is_none, take, length};
ghost use Rattle.std.specs.Option.{option_copied};
ghost use Rattle.pir_io.specs.declared.fault.IoFault.TheVariants.{Failed};
ghost use Rattle.pir_io.specs.Files.{ReadsAt, Creates, AppendsTo, content_of};
ghost use Rattle.pir_io.specs.Plan.{FailsExactly, is_listed};
ghost use Rattle.pir_io.specs.MemFiles.{IsEmpty, Takes, mem_files_seen, mem_files_plan};

use crate::contents::{Contents, copy_piece};
use crate::plan::Plan;
use crate::{Files, IoFault};
use no_memory::NoMemory;
use std::alloc::Global;

/// A call that failed: the name that it was given, and whether it wrote.
#[derive(Drop)]
pub(crate) struct LastFailed {
    pub(crate) name: String,
    pub(crate) wrote: bool,
}

/// Files in memory whose listed calls fail, and the reads of a name that isn't there.
#[derive(Drop)]
pub struct MemFiles {
    alloc: Global,
    contents: Contents,
    plan: Plan,
    last_failed: Option<LastFailed>,
}

impl MemFiles {
    /// No name is there yet. `fail` has the numbers of the calls that are to fail, counted from 0 over all calls
    /// of `Files`.
    pub fn new(alloc: Global, fail: Vec<u64>) -> Self
        ensures seen { IsEmpty (mem_files_seen result) }
        ensures plan { mem_files_plan result ≡ record { fail = fail.items; calls = 0 } }
    {
        MemFiles {
            alloc,
            contents: Contents::new(alloc),
            plan: Plan::new(fail),
            last_failed: None,
        }
    }

    /// The name then holds these bytes. It isn't counted as a call.
    pub fn with(&mut self, name: &str, bytes: &[u8]) -> Result<(), NoMemory>
        ensures takes { Takes (mem_files_seen self.old) (mem_files_seen self.new) name.now bytes.now result }
        ensures plan { mem_files_plan self.new ≡ mem_files_plan self.old }
    {
        self.contents.put(name, bytes)?;
        Ok(())
    }

    /// The bytes of a name. None where it isn't there. It isn't counted as a call.
    pub fn bytes(&self, name: &str) -> Option<&[u8]>
        ensures { option_copied result ≡ (mem_files_seen self.now).content name.now }
    {
        self.contents.bytes(name)
    }
}

impl Files for MemFiles {
    ghost seen = { mem_files_seen };

    fn read_at(&mut self, name: &str, place: u64, into: &mut [u8]) -> Result<usize, IoFault>
        ensures reads { ReadsAt (mem_files_seen self.old) (mem_files_seen self.new) name.now place into.old into.new result }
        ensures exact { let missing = is_none ((mem_files_seen self.old).content name.now) in
            FailsExactly (mem_files_plan self.old) (mem_files_plan self.new) (is_listed (mem_files_plan self.old) || missing) result }
    {
        match self.contents.bytes(name) {
            Some(bytes) if !self.plan.is_next_listed() => {
                let count = copy_piece(bytes, place, into);
                self.plan.count_success();
                Ok(count)
            }
            _ => {
                let name = String::from_str(self.alloc, name)?;
                self.plan.count_failure();
                self.last_failed = Some(LastFailed { name, wrote: false });
                Err(IoFault::Failed)
            }
        }
    }

    /// A call that fails has changed nothing.
    fn create(&mut self, name: &str) -> Result<(), IoFault>
        ensures creates { Creates (mem_files_seen self.old) (mem_files_seen self.new) name.now result }
        ensures exact { FailsExactly (mem_files_plan self.old) (mem_files_plan self.new) (is_listed (mem_files_plan self.old)) result }
        ensures nothing { result ≡ Err Failed → (mem_files_seen self.new).content name.now ≡ (mem_files_seen self.old).content name.now }
    {
        if self.plan.is_next_listed() {
            let name = String::from_str(self.alloc, name)?;
            self.plan.count_failure();
            self.last_failed = Some(LastFailed { name, wrote: true });
            return Err(IoFault::Failed);
        }
        self.contents.put(name, &[])?;
        self.plan.count_success();
        Ok(())
    }

    /// A call that fails has added the first half.
    fn append(&mut self, name: &str, bytes: &[u8]) -> Result<(), IoFault>
        ensures appends { AppendsTo (mem_files_seen self.old) (mem_files_seen self.new) name.now bytes.now result }
        ensures exact { FailsExactly (mem_files_plan self.old) (mem_files_plan self.new) (is_listed (mem_files_plan self.old)) result }
        ensures half { result ≡ Err Failed → (mem_files_seen self.new).content name.now ≡ Some (content_of (mem_files_seen self.old) name.now ++ take (length bytes.now / 2) bytes.now) }
    {
        if self.plan.is_next_listed() {
            let named = String::from_str(self.alloc, name)?;
            self.contents.append(name, &bytes[..bytes.len() / 2])?;
            self.plan.count_failure();
            self.last_failed = Some(LastFailed {
                name: named,
                wrote: true,
            });
            return Err(IoFault::Failed);
        }
        self.contents.append(name, bytes)?;
        self.plan.count_success();
        Ok(())
    }
}
