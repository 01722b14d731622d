//! A benchmark: what the ring does with polynomials of degree 2048, each repeated as often as the program's word says.
#![tactic(auto)]

mod bench;

use bench::{Bench, Operation};
use std::process::ExitCode;
use std::rt::{Clock, Env};
use std::time::{Duration, Instant};
use std::{env, io};

/// How often the repetitions are timed. The least time counts.
const ROUNDS: u32 = 10;

/// How often each operation is repeated: the first word, or 0.
fn repetitions(rt: &(impl Env + AllocGlobal)) -> io::Result<u32> {
    match env::args(rt)?.nth(1) {
        Some(word) => Ok(word.parse().unwrap_or(0)),
        None => Ok(0),
    }
}

/// The time of so many repetitions.
fn timed(
    rt: &impl Clock,
    bench: &mut Bench,
    operation: Operation,
    count: u32,
) -> io::Result<Duration> {
    let start = Instant::now(rt)?;
    for _ in 0..count {
        bench.run(operation);
    }
    start.elapsed(rt)
}

/// The least time of so many repetitions, of ten.
fn least_time(
    rt: &impl Clock,
    bench: &mut Bench,
    operation: Operation,
    count: u32,
) -> io::Result<Duration> {
    let mut least = timed(rt, bench, operation, count)?;
    for _ in 1..ROUNDS {
        least = least.min(timed(rt, bench, operation, count)?);
    }
    Ok(least)
}

/// Prints the nanoseconds of each operation.
fn print_times(rt: &(impl Clock + Print), bench: &mut Bench, count: u32) -> io::Result<()> {
    for operation in Operation::ALL {
        let time = least_time(rt, bench, operation, count)?;
        if count > 0 {
            let each = time.as_nanos() / u128::from(count);
            println!(rt; "{} {each} ns", operation.name())?;
        }
    }
    Ok(())
}

fn main(rt: HostRuntime) -> ExitCode {
    let Ok(count) = repetitions(&rt) else {
        return ExitCode::from(2);
    };
    let Ok(mut bench) = Bench::new(rt.alloc()) else {
        return ExitCode::from(6);
    };
    match print_times(&rt, &mut bench, count) {
        Ok(()) => ExitCode::from(0),
        Err(_) => ExitCode::from(7),
    }
}
