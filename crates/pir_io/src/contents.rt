ghost use Rattle.std.specs.Prelude.{◌≡◌, ◌++◌, ◌-◌, min, ℕ, List, OnOk, OnErr, None, Some, length};
ghost use Rattle.std.specs.Option.{option_copied};
ghost use Rattle.pir_io.specs.Files.{IsPiece};
ghost use Rattle.pir_io.specs.Contents.{content_at, bytes_at, SameContents, SameOthers};

use std::alloc::{AllocError, Global};
use std::collections::BTreeMap;

/// Bytes under names.
#[derive(Drop)]
pub(crate) struct Contents {
    alloc: Global,
    files: BTreeMap<String, Vec<u8>>,
}

impl Contents {
    /// No name is there.
    pub(crate) fn new(alloc: Global) -> Self
        ensures { (name : List ℕ) → content_at result name ≡ None }
    {
        Contents {
            alloc,
            files: BTreeMap::new(alloc),
        }
    }

    /// The bytes of a name. None where it isn't there.
    pub(crate) fn bytes(&self, name: &str) -> Option<&[u8]>
        ensures { option_copied result ≡ content_at self.now name.now }
    {
        match self.files.get(name) {
            Some(bytes) => Some(bytes.as_slice()),
            None => None,
        }
    }

    /// The name then holds these bytes.
    pub(crate) fn put(&mut self, name: &str, bytes: &[u8]) -> Result<(), AllocError>
        ensures ok { OnOk result (content_at self.new name.now ≡ Some bytes.now) }
        ensures err { OnErr result (SameContents self.old self.new) }
        ensures others { SameOthers self.old self.new name.now }
    {
        let key = String::from_str(self.alloc, name)?;
        let held = bytes.to_vec(self.alloc)?;
        self.files.insert(key, held)?;
        Ok(())
    }

    /// Adds the bytes at the name's end; makes a name that isn't there.
    pub(crate) fn append(&mut self, name: &str, bytes: &[u8]) -> Result<(), AllocError>
        ensures ok { OnOk result (content_at self.new name.now ≡ Some (bytes_at self.old name.now ++ bytes.now)) }
        ensures err { OnErr result (SameContents self.old self.new) }
        ensures others { SameOthers self.old self.new name.now }
    {
        match self.files.get_mut(name) {
            Some(held) => {
                held.extend_from_slice(bytes)?;
                Ok(())
            }
            None => self.put(name, bytes),
        }
    }
}

/// The front of `into` becomes the bytes from `place`, as many as there are and as it has room for.
pub(crate) fn copy_piece(bytes: &[u8], place: u64, into: &mut [u8]) -> usize
    ensures count { result ≡ min (length into.new) (length bytes.now - place) }
    ensures piece { IsPiece bytes.now place into.new result }
{
    let start = place as usize;
    if start >= bytes.len() {
        return 0;
    }
    let count = into.len().min(bytes.len() - start);
    into[..count].copy_from_slice(&bytes[start..start + count]);
    count
}
