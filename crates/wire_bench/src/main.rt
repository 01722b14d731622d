//! A benchmark: how long it takes to read a Setup frame, a file that the first word names, in pieces of as many bytes as the second says.
#![tactic(auto)]

mod reading;

use pir_io::{Files, HostFiles};
use reading::is_setup;
use std::alloc::{AllocError, Global};
use std::process::ExitCode;
use std::rt::{Clock, Env};
use std::time::{Duration, Instant};
use std::{env, io};

/// How often the frame is read. The least time counts.
const ROUNDS: u32 = 10;

/// Room for the longest frame.
const LONGEST: usize = 16_777_216;

/// The program's word of that place.
fn word(rt: &(impl Env + AllocGlobal), place: usize) -> io::Result<Option<String>> {
    Ok(env::args(rt)?.nth(place))
}

/// The size of a piece: that word, or 65,536.
fn piece_size(rt: &(impl Env + AllocGlobal)) -> io::Result<u32> {
    match word(rt, 2)? {
        Some(word) => Ok(word.parse().unwrap_or(65_536)),
        None => Ok(65_536),
    }
}

fn room(alloc: Global) -> Result<Vec<u8>, AllocError> {
    vec![in alloc; 0u8; LONGEST]
}

/// How long one reading takes.
fn timed(rt: &impl Clock, alloc: Global, bytes: &[u8], size: u32) -> io::Result<Option<Duration>> {
    let start = Instant::now(rt)?;
    let is_whole = is_setup(alloc, bytes, size);
    let time = start.elapsed(rt)?;
    Ok(is_whole.then_some(time))
}

/// The least time of ten readings; `None` where the bytes aren't one Setup frame.
fn least_time(
    rt: &impl Clock,
    alloc: Global,
    bytes: &[u8],
    size: u32,
) -> io::Result<Option<Duration>> {
    let mut least = timed(rt, alloc, bytes, size)?;
    for _ in 1..ROUNDS {
        let next = timed(rt, alloc, bytes, size)?;
        least = least.min(next);
    }
    Ok(least)
}

/// Prints the bytes and the nanoseconds of the file's reading.
fn print_time(
    rt: &(impl Env + Clock + Print + AllocGlobal),
    alloc: Global,
    bytes: &[u8],
) -> io::Result<()> {
    let size = piece_size(rt)?;
    match least_time(rt, alloc, bytes, size)? {
        Some(time) => println!(rt; "{} bytes {} ns", bytes.len(), time.as_nanos()),
        None => println!(rt; "not a Setup frame"),
    }
}

fn main(rt: HostRuntime) -> ExitCode {
    let alloc = rt.alloc();
    // The gate gives no words: nothing is read then.
    let Ok(Some(name)) = word(&rt, 1) else {
        return ExitCode::from(0);
    };
    let Ok(mut buffer) = room(alloc) else {
        return ExitCode::from(1);
    };
    let mut files = HostFiles::new(&rt, alloc);
    let Ok(count) = files.read_at(name.as_str(), 0, &mut buffer) else {
        return ExitCode::from(7);
    };
    match print_time(&rt, alloc, &buffer[..count]) {
        Ok(()) => ExitCode::from(0),
        Err(_) => ExitCode::from(7),
    }
}
