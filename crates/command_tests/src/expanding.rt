//! Look-ups in a set whose query is one ciphertext, which the server expands with the keys of SETUP, through the program's commands.
use crate::commands::{expect_bytes, status_of};
use pir_io::{MemFiles, MemSink};
use std::alloc::{AllocError, Global};
use std::process::Abort;
use std::test::Fail;
use std::thread::Threads;

/// As many and as long records as tiny-spiral has: record k is 256 bytes k.
fn sixteen_records(alloc: Global) -> Result<Vec<u8>, AllocError> {
    let mut bytes = Vec::new(alloc);
    for k in 0..16u8 {
        bytes.extend_from_slice(&[k; 256])?;
    }
    Ok(bytes)
}

/// Runs the program on these words, which puts that line and is done.
pub(crate) fn expect_line<R: Abort + Threads + Sync>(
    rt: &R,
    alloc: Global,
    words: &[&str],
    files: &mut MemFiles,
    line: &[u8],
) -> Result<(), Fail> {
    let mut sink = MemSink::new(alloc, Vec::new(alloc));
    let status = status_of(rt, alloc, words, files, &mut sink)?;
    assert_eq!(rt; status, 0);
    assert_eq!(rt; sink.bytes(), line);
    Ok(())
}

/// The records, and a seed of 32 bytes.
fn records_and_seed(alloc: Global, seed: &[u8]) -> Result<MemFiles, Fail> {
    let mut files = MemFiles::new(alloc, Vec::new(alloc));
    files.with("records", &sixteen_records(alloc)?)?;
    files.with("seed", seed)?;
    Ok(files)
}

/// `prepare` and `ask`. A Setup has 1655808 bytes and a Query 3584, each behind 26 of header.
fn make_query<R: Abort + Threads + Sync>(
    rt: &R,
    alloc: Global,
    files: &mut MemFiles,
    index: &str,
) -> Result<(), Fail> {
    let prepare = ["prepare", "tiny-spiral", "256", "records", "db"];
    let line = b"database tiny-spiral 16 records of 256 bytes\n".as_slice();
    expect_line(rt, alloc, &prepare, files, line)?;
    let ask = [
        "ask",
        "tiny-spiral",
        index,
        "seed:seed",
        "state",
        "setup",
        "query",
    ];
    let line = b"query tiny-spiral setup 1655834 bytes query 3610 bytes\n".as_slice();
    expect_line(rt, alloc, &ask, files, line)?;
    Ok(())
}

/// `answer` and `open`. A Reply has 16 bytes, 4 times 256 numbers of 4 bits and 2 times 256 of 20, and 26 of header.
fn open_answer<R: Abort + Threads + Sync>(
    rt: &R,
    alloc: Global,
    files: &mut MemFiles,
) -> Result<(), Fail> {
    let answer = ["answer", "db", "setup", "query", "reply", "2"];
    let line = b"reply tiny-spiral 1834 bytes\n".as_slice();
    expect_line(rt, alloc, &answer, files, line)?;
    let open = ["open", "state", "reply", "out"];
    let line = b"record 256 bytes\n".as_slice();
    expect_line(rt, alloc, &open, files, line)?;
    Ok(())
}

/// A look-up of an index from a seed, which gives the record of bytes `record`.
fn expect_record<R: Abort + Threads + Sync>(
    rt: &R,
    alloc: Global,
    seed: &[u8],
    index: &str,
    record: u8,
) -> Result<(), Fail> {
    let mut files = records_and_seed(alloc, seed)?;
    make_query(rt, alloc, &mut files, index)?;
    open_answer(rt, alloc, &mut files)?;
    expect_bytes(rt, files.bytes("out"), &[record; 256], index);
    Ok(())
}

#[test]
fn the_last_record_comes_back(rt: HostRuntime) -> Result<(), Fail> {
    expect_record(&rt, rt.alloc(), &[0; 32], "15", 15)?;
    Ok(())
}

#[test]
fn a_record_comes_back_from_another_seed(rt: HostRuntime) -> Result<(), Fail> {
    expect_record(&rt, rt.alloc(), &[7; 32], "6", 6)?;
    Ok(())
}
