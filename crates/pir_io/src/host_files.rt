ghost use Rattle.std.specs.Prelude.{◌≡◌, ◌≤◌, IfOk, OnOk, length};
ghost use Rattle.pir_io.specs.Faults.{HasCause};
ghost use Rattle.pir_io.specs.Host.{host_files_seen};

use crate::count::count_fault;
use crate::{Files, IoFault};
use std::alloc::Global;
use std::fs::OpenOptions;
use std::io::{ErrorKind, Read, Seek, SeekFrom, Write};
use std::{fs, io, rt};

/// A file that is open for reading, and the place that comes next in it.
#[derive(Drop)]
struct OpenFile<F> {
    name: String,
    place: u64,
    file: F,
}

/// The system's files. It tells no contents.
///
/// The file that was read last stays open, so that reading on from place to place is one reading from its start: of a
/// pipe as of a file. A read elsewhere in it seeks; a read of another name, a failed read, and each `create` and
/// `append` let go of it.
#[derive(Drop)]
pub struct HostFiles<R: rt::Files> {
    rt: R,
    alloc: Global,
    open: Option<OpenFile<R::File>>,
    faults: u64,
}

impl<R: rt::Files> HostFiles<R> {
    /// No file is open, and no call has failed yet.
    pub fn new(rt: R, alloc: Global) -> Self
        ensures { (host_files_seen result).faults ≡ 0 }
    {
        HostFiles {
            rt,
            alloc,
            open: None,
            faults: 0,
        }
    }

    /// How many calls have failed.
    pub fn faults(&self) -> u64
        ensures { result ≡ (host_files_seen self.now).faults }
    {
        self.faults
    }

    /// The file of this name: the one that was kept open, or one that is opened now.
    fn take_open(&mut self, name: &str) -> Result<OpenFile<R::File>, IoFault>
        ensures cause { HasCause self.old.faults self.new.faults result }
        ensures same { OnOk result (self.new.faults ≡ self.old.faults) }
    {
        match self.open.take() {
            Some(open) if open.name.as_str() == name => Ok(open),
            _ => {
                let name = String::from_str(self.alloc, name)?;
                let outcome = fs::open(&self.rt, name.as_str());
                let file = count_fault(&mut self.faults, outcome)?;
                Ok(OpenFile {
                    name,
                    place: 0,
                    file,
                })
            }
        }
    }
}

impl<R: rt::Files> Files for HostFiles<R> {
    ghost seen = { host_files_seen };

    fn read_at(&mut self, name: &str, place: u64, into: &mut [u8]) -> Result<usize, IoFault> {
        let mut open = self.take_open(name)?;
        let outcome = read_from(&mut open, place, into);
        let count = count_fault(&mut self.faults, outcome)?;
        self.open = Some(open);
        Ok(count)
    }

    fn create(&mut self, name: &str) -> Result<(), IoFault> {
        self.open = None;
        let outcome = truncate(&self.rt, name);
        count_fault(&mut self.faults, outcome)
    }

    fn append(&mut self, name: &str, bytes: &[u8]) -> Result<(), IoFault> {
        self.open = None;
        let outcome = write_behind(&self.rt, name, bytes);
        count_fault(&mut self.faults, outcome)
    }
}

/// Reads from a place of an open file, which is sought only where it isn't the one that comes next.
fn read_from<S: Read + Seek>(
    open: &mut OpenFile<S>,
    place: u64,
    into: &mut [u8],
) -> io::Result<usize>
    ensures { IfOk result (λ n. n ≤ length into.new) }
{
    if place != open.place {
        open.file.seek(SeekFrom::Start(place))?;
    }
    let count = fill(&mut open.file, into)?;
    open.place = place.saturating_add(count as u64);
    Ok(count)
}

/// Reads until the buffer is full or the end comes.
fn fill<S: Read>(source: &mut S, into: &mut [u8]) -> io::Result<usize>
    ensures { IfOk result (λ n. n ≤ length into.new) }
{
    let mut filled = 0;
    'turns: for _ in 0..u64::MAX {
        if filled == into.len() {
            return Ok(filled);
        }
        match source.read(&mut into[filled..]) {
            Ok(0) => return Ok(filled),
            Ok(count) => filled += count,
            Err(error) if error.kind() == ErrorKind::Interrupted => {}
            Err(error) => return Err(error),
        }
    }
    Err(io::Error::from(ErrorKind::TimedOut))
}

/// Leaves a file with no bytes; makes one that isn't there.
fn truncate<R: rt::Files>(rt: &R, name: &str) -> io::Result<()> {
    let mut file = fs::create(rt, name)?;
    file.flush()
}

/// Adds the bytes at a file's end; makes one that isn't there. A write that takes nothing is a failure.
fn write_behind<R: rt::Files>(rt: &R, name: &str, bytes: &[u8]) -> io::Result<()> {
    let mut file = OpenOptions::new().append(true).create(true).open(rt, name)?;
    file.write_all(bytes)?;
    file.flush()
}
