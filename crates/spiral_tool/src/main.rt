//! The program: private information retrieval by commands over files and the network.
#![tactic(auto)]

use pir_io::{HostFiles, OpenGate, OutSink, TcpNet};
use std::alloc::Global;
use std::env;
use std::io::{self, ErrorKind};
use std::process::ExitCode;
use std::rt::Env;
use tool_base::Status;
use tool_run::run;

// The words behind the program's name.
fn command_words(rt: &(impl Env + AllocGlobal), alloc: Global) -> io::Result<Vec<String>> {
    let mut words = Vec::new(alloc);
    for word in env::args(rt)?.skip(1) {
        words.push(word)?;
    }
    Ok(words)
}

fn main(rt: HostRuntime) -> ExitCode {
    let alloc = rt.alloc();
    // Words that are no text fit no command's form, as if there were none.
    let words = match command_words(&rt, alloc) {
        Ok(words) => words,
        Err(error) if error.kind() == ErrorKind::OutOfMemory => {
            return ExitCode::from(Status::NoMemory.number());
        }
        Err(_) => Vec::new(alloc),
    };
    let mut files = HostFiles::new(&rt, alloc);
    let mut net = TcpNet::new(&rt, alloc);
    let mut sink = OutSink::new(&rt, alloc);
    ExitCode::from(run(
        &rt, alloc, &words, &mut files, &mut net, &OpenGate, &mut sink,
    ))
}
