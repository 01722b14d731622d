//! Files, sinks and a net: the system's, and those in memory that no command uses.
use pir_io::{
    Files, HostFiles, IoFault, Link, Net, OutSink, Sink, SoundFiles, SoundNet, SoundSink,
    write_file,
};
use std::alloc::Global;
use std::fmt::Display;
use std::io::{ErrorKind, Write};
use std::os::fd::AsRawFd;
use std::process::Abort;
use std::test::Fail;
use std::{fs, io};

fn expect_failed<T: Drop>(rt: &impl Abort, outcome: Result<T, IoFault>) {
    assert!(rt; matches!(outcome, Err(IoFault::Failed)));
}

fn expect_bytes(rt: &impl Abort, bytes: Option<&[u8]>, want: &[u8]) {
    let bytes = bytes.expect(rt, "bytes");
    assert_eq!(rt; bytes, want);
}

/// Reads into four bytes.
fn expect_read<F: Files>(rt: &impl Abort, files: &mut F, name: &str, place: u64, want: &[u8]) {
    let mut into = [0u8; 4];
    let count = files.read_at(name, place, &mut into).expect(rt, "a read");
    assert_eq!(rt; &into[..count], want);
}

#[test]
fn sound_objects_refuse_nothing(rt: HostRuntime) -> Result<(), Fail> {
    let alloc = rt.alloc();
    let mut files = SoundFiles::new(alloc);
    files.with("a", b"hello")?;
    expect_read(&rt, &mut files, "b", 0, b"");
    expect_read(&rt, &mut files, "a", 3, b"lo");
    files.append("b", b"made")?;
    files.create("a")?;
    expect_bytes(&rt, files.bytes("a"), b"");
    expect_bytes(&rt, files.bytes("b"), b"made");
    let mut sink = SoundSink::new(alloc);
    sink.put(b"one ")?;
    sink.put(b"two")?;
    assert_eq!(rt; sink.bytes(), b"one two".as_slice());
    Ok(())
}

// A session's peer sends "hello". A read gives three bytes at most.
#[test]
fn a_net_in_memory_reads_its_inputs(rt: HostRuntime) -> Result<(), Fail> {
    let alloc = rt.alloc();
    let mut inputs = Vec::new(alloc);
    inputs.push(b"hello".to_vec(alloc)?)?;
    let mut net = SoundNet::new(alloc, inputs, 3);
    let mut into = [0u8; 4];
    net.connect("there")?;
    let count = net.read(&mut into)?;
    assert_eq!(rt; &into[..count], b"hel".as_slice());
    let count = net.read(&mut into)?;
    assert_eq!(rt; &into[..count], b"lo".as_slice());
    Ok(())
}

#[test]
fn a_net_in_memory_keeps_what_is_written(rt: HostRuntime) -> Result<(), Fail> {
    let alloc = rt.alloc();
    let mut net = SoundNet::new(alloc, Vec::new(alloc), 3);
    net.listen("here")?;
    assert!(rt; net.wrote(0).is_none());
    net.accept()?;
    net.write(b"ab")?;
    net.end()?;
    net.accept()?;
    net.write(b"d")?;
    expect_bytes(&rt, net.wrote(0), b"ab");
    expect_bytes(&rt, net.wrote(1), b"d");
    assert!(rt; net.wrote(2).is_none());
    Ok(())
}

/// Reads eight pieces of three bytes at most, each where the one before it ended.
fn read_in_threes<F: Files>(alloc: Global, files: &mut F, name: &str) -> Result<Vec<u8>, IoFault> {
    let mut bytes = Vec::new(alloc);
    let mut into = [0u8; 3];
    for _ in 0..8 {
        let count = files.read_at(name, bytes.len() as u64, &mut into)?;
        bytes.extend_from_slice(&into[..count])?;
    }
    Ok(bytes)
}

#[test]
fn the_systems_files_are_written_read_on_and_sought(rt: HostRuntime) -> Result<(), Fail> {
    let alloc = rt.alloc();
    let (first, second) = ("spiral_first_test.tmp", "spiral_second_test.tmp");
    let mut files = HostFiles::new(&rt, alloc);
    files.append(first, b"old")?;
    write_file(&mut files, first, b"hello you")?;
    write_file(&mut files, second, b"other")?;
    let bytes = read_in_threes(alloc, &mut files, first)?;
    expect_bytes(&rt, Some(&bytes), b"hello you");
    expect_read(&rt, &mut files, first, 1, b"ello");
    expect_read(&rt, &mut files, second, 0, b"othe");
    expect_read(&rt, &mut files, first, 9, b"");
    write_file(&mut files, first, b"new bytes")?;
    expect_read(&rt, &mut files, first, 4, b"byte");
    assert_eq!(rt; files.faults(), 0);
    fs::remove_file(&rt, first)?;
    fs::remove_file(&rt, second)?;
    Ok(())
}

#[test]
fn a_pipe_is_read_from_its_start_to_its_end(rt: HostRuntime) -> Result<(), Fail> {
    let alloc = rt.alloc();
    let (reader, mut writer) = io::pipe(&rt)?;
    writer.write_all(b"hello you")?;
    drop(writer);
    let name = format!(in alloc; "/dev/fd/{}", reader.as_raw_fd())?;
    let mut files = HostFiles::new(&rt, alloc);
    let bytes = read_in_threes(alloc, &mut files, &name)?;
    expect_bytes(&rt, Some(&bytes), b"hello you");
    expect_failed(&rt, files.read_at(&name, 1, &mut [0u8; 4]));
    assert_eq!(rt; files.faults(), 1);
    Ok(())
}

#[test]
fn the_systems_refusals_are_counted(rt: HostRuntime) -> Result<(), Fail> {
    let mut files = HostFiles::new(&rt, rt.alloc());
    let mut into = [0u8; 4];
    expect_failed(&rt, files.read_at("no such name", 0, &mut into));
    expect_failed(&rt, files.create("no such folder/name"));
    expect_failed(&rt, files.append("/dev/full", b"x"));
    assert_eq!(rt; files.faults(), 3);
    Ok(())
}

/// A standard output on a full device.
#[derive(Drop)]
struct FullOutput;

impl Print for FullOutput {
    fn print<D: Display + Drop>(&self, _value: D) -> io::Result<()> {
        Err(io::Error::from(ErrorKind::StorageFull))
    }

    fn println<D: Display + Drop>(&self, _value: D) -> io::Result<()> {
        Err(io::Error::from(ErrorKind::StorageFull))
    }

    fn write_all(&self, _bytes: &[u8]) -> io::Result<()> {
        Err(io::Error::from(ErrorKind::StorageFull))
    }
}

#[test]
fn standard_output_takes_bytes_or_counts_a_failure(rt: HostRuntime) -> Result<(), Fail> {
    let mut sink = OutSink::new(&rt, rt.alloc());
    sink.put(b"put\n")?;
    assert_eq!(rt; sink.faults(), 0);
    let full = FullOutput;
    let mut sink = OutSink::new(&full, rt.alloc());
    expect_failed(&rt, sink.put(b"put\n"));
    assert_eq!(rt; sink.faults(), 1);
    Ok(())
}
