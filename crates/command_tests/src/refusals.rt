//! What `answer` and `open` tell of inputs that aren't the frames expected there.
use crate::commands::{inputs, status_of};
use pir_io::{MemFiles, MemSink};
use std::alloc::Global;
use std::process::Abort;
use std::test::Fail;
use std::thread::Threads;

const ANSWER: &[&str] = &["answer", "db", "setup", "query", "out", "1"];

const OPEN: &[&str] = &["open", "state", "reply", "out"];

/// An input of a command, and the lines that tell that it is empty and that a byte stands behind its frame.
#[derive(Clone, Copy)]
struct Input {
    words: &'static [&'static str],
    name: &'static str,
    empty: &'static [u8],
    longer: &'static [u8],
}

/// All but SETUP, which is empty on edge-256. A State has 543 bytes, a Reply 2087, a Query 150551, and the database 1063.
const INPUTS: [Input; 4] = [
    Input {
        words: ANSWER,
        name: "db",
        empty: b"bad frame: input 1, code 1, place 0\n",
        longer: b"bad frame: input 1, code 14, place 1063\n",
    },
    Input {
        words: ANSWER,
        name: "query",
        empty: b"bad frame: input 3, code 1, place 0\n",
        longer: b"bad frame: input 3, code 14, place 150551\n",
    },
    Input {
        words: OPEN,
        name: "state",
        empty: b"bad frame: input 1, code 1, place 0\n",
        longer: b"bad frame: input 1, code 14, place 543\n",
    },
    Input {
        words: OPEN,
        name: "reply",
        empty: b"bad frame: input 2, code 1, place 0\n",
        longer: b"bad frame: input 2, code 14, place 2087\n",
    },
];

/// Runs the program on these words, which ends with that status and that line and writes no output.
fn expect_refusal<R: Abort + Threads + Sync>(
    rt: &R,
    alloc: Global,
    words: &[&str],
    files: &mut MemFiles,
    status: u8,
    line: &[u8],
) -> Result<(), Fail> {
    let mut sink = MemSink::new(alloc, Vec::new(alloc));
    assert_eq!(rt; status_of(rt, alloc, words, files, &mut sink)?, status);
    assert_eq!(rt; sink.bytes(), line);
    assert!(rt; files.bytes("out").is_none());
    Ok(())
}

/// The inputs of a look-up, with these bytes under a name.
fn inputs_with(alloc: Global, name: &str, bytes: &[u8]) -> Result<MemFiles, Fail> {
    let mut files = inputs(alloc, Vec::new(alloc))?;
    files.with(name, bytes)?;
    Ok(files)
}

fn expect_input<R: Abort + Threads + Sync>(
    rt: &R,
    alloc: Global,
    input: Input,
) -> Result<(), Fail> {
    let mut files = inputs_with(alloc, input.name, b"")?;
    expect_refusal(rt, alloc, input.words, &mut files, 9, input.empty)?;
    let whole = inputs(alloc, Vec::new(alloc))?;
    let mut longer = whole
        .bytes(input.name)
        .expect(rt, "an input")
        .to_vec(alloc)?;
    longer.push(0)?;
    let mut files = inputs_with(alloc, input.name, &longer)?;
    expect_refusal(rt, alloc, input.words, &mut files, 9, input.longer)?;
    Ok(())
}

#[test]
fn each_input_is_told_with_its_refusal(rt: HostRuntime) -> Result<(), Fail> {
    for input in &INPUTS {
        expect_input(&rt, rt.alloc(), *input)?;
    }
    Ok(())
}

/// The Setup frames of two sets without keys, and a byte that begins no frame.
#[test]
fn a_setup_where_the_set_has_no_keys(rt: HostRuntime) -> Result<(), Fail> {
    let alloc = rt.alloc();
    let mut files = inputs_with(alloc, "setup", b"\0")?;
    let line = b"bad frame: input 2, code 2, place 0\n".as_slice();
    expect_refusal(&rt, alloc, ANSWER, &mut files, 9, line)?;
    let other = b"SPIR\x01\x01\x0btiny-stream\0\0\0\0\0\0\0\0".as_slice();
    let mut files = inputs_with(alloc, "setup", other)?;
    let line = b"wrong set: expected edge-256, found tiny-stream\n".as_slice();
    expect_refusal(&rt, alloc, ANSWER, &mut files, 10, line)?;
    let own = b"SPIR\x01\x01\x08edge-256\0\0\0\0\0\0\0\0".as_slice();
    let mut files = inputs_with(alloc, "setup", own)?;
    let mut sink = MemSink::new(alloc, Vec::new(alloc));
    assert_eq!(rt; status_of(&rt, alloc, ANSWER, &mut files, &mut sink)?, 0);
    let reply = files.bytes("reply").expect(&rt, "an input");
    assert!(rt; files.bytes("out").expect(&rt, "an output") == reply);
    Ok(())
}

/// A Refuse frame of code 12 and place 23.
#[test]
fn a_refusal_of_the_server_is_told(rt: HostRuntime) -> Result<(), Fail> {
    let alloc = rt.alloc();
    let refuse = b"SPIR\x01\x04\x08edge-256\x09\0\0\0\0\0\0\0\x0c\x17\0\0\0\0\0\0\0".as_slice();
    let mut files = inputs_with(alloc, "reply", refuse)?;
    let line = b"peer refused: code 12, place 23\n".as_slice();
    expect_refusal(&rt, alloc, OPEN, &mut files, 12, line)?;
    Ok(())
}
