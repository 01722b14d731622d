ghost use Rattle.std.specs.Prelude.{◌≡◌};
ghost use Rattle.std.specs.Option.{option_copied};
ghost use Rattle.pir_io.specs.MemFiles.{IsEmpty, Takes, sound_files_seen};

use crate::contents::{Contents, copy_piece};
use crate::{Files, IoFault};
use no_memory::NoMemory;
use std::alloc::Global;

/// Files in memory whose calls never fail. A name that isn't there reads as empty.
#[derive(Drop)]
pub struct SoundFiles {
    contents: Contents,
}

impl SoundFiles {
    /// No name is there yet.
    pub fn new(alloc: Global) -> Self
        ensures { IsEmpty (sound_files_seen result) }
    {
        SoundFiles {
            contents: Contents::new(alloc),
        }
    }

    /// The name then holds these bytes.
    pub fn with(&mut self, name: &str, bytes: &[u8]) -> Result<(), NoMemory>
        ensures { Takes (sound_files_seen self.old) (sound_files_seen self.new) name.now bytes.now result }
    {
        self.contents.put(name, bytes)?;
        Ok(())
    }

    /// The bytes of a name. None where it isn't there.
    pub fn bytes(&self, name: &str) -> Option<&[u8]>
        ensures { option_copied result ≡ (sound_files_seen self.now).content name.now }
    {
        self.contents.bytes(name)
    }
}

impl Files for SoundFiles {
    ghost seen = { sound_files_seen };

    fn read_at(&mut self, name: &str, place: u64, into: &mut [u8]) -> Result<usize, IoFault> {
        match self.contents.bytes(name) {
            Some(bytes) => Ok(copy_piece(bytes, place, into)),
            None => Ok(0),
        }
    }

    fn create(&mut self, name: &str) -> Result<(), IoFault> {
        self.contents.put(name, &[])?;
        Ok(())
    }

    fn append(&mut self, name: &str, bytes: &[u8]) -> Result<(), IoFault> {
        self.contents.append(name, bytes)?;
        Ok(())
    }
}
