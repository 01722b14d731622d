//! A look-up in a set that packs, whose SETUP holds the keys with which the server lifts and packs, through the program's commands.
use crate::commands::expect_bytes;
use crate::expanding::expect_line;
use pir_io::MemFiles;
use std::alloc::{AllocError, Global};
use std::test::Fail;

/// As many and as long records as tiny-streampack has: record k is 1024 bytes k.
fn eight_records(alloc: Global) -> Result<Vec<u8>, AllocError> {
    let mut bytes = Vec::new(alloc);
    for k in 0..8u8 {
        bytes.extend_from_slice(&[k; 1024])?;
    }
    Ok(bytes)
}

/// A command's words and the line that it puts.
#[derive(Clone, Copy)]
struct Course {
    words: &'static [&'static str],
    line: &'static [u8],
}

/// A look-up of record 7. A Setup has two lift keys of 8 ciphertexts of 3 rows: 86016 bytes; a Query 4 ciphertexts of the first
/// dimension and 16 of a selection, of 2 rows: 71680 bytes; a row has 256 numbers of 7 bytes. A Reply has 16 bytes, 4 times 256 numbers
/// of 10 bits and 2 times 256 of 24. Each has 30 bytes of header.
const LOOK_UP: [Course; 4] = [
    Course {
        words: &["prepare", "tiny-streampack", "1024", "records", "db"],
        line: b"database tiny-streampack 8 records of 1024 bytes\n",
    },
    Course {
        words: &[
            "ask",
            "tiny-streampack",
            "7",
            "seed:seed",
            "state",
            "setup",
            "query",
        ],
        line: b"query tiny-streampack setup 86046 bytes query 71710 bytes\n",
    },
    Course {
        words: &["answer", "db", "setup", "query", "reply", "2"],
        line: b"reply tiny-streampack 2862 bytes\n",
    },
    Course {
        words: &["open", "state", "reply", "out"],
        line: b"record 1024 bytes\n",
    },
];

#[test]
fn the_last_record_of_a_set_that_packs_comes_back(rt: HostRuntime) -> Result<(), Fail> {
    let alloc = rt.alloc();
    let mut files = MemFiles::new(alloc, Vec::new(alloc));
    files.with("records", &eight_records(alloc)?)?;
    files.with("seed", &[0; 32])?;
    for course in LOOK_UP {
        expect_line(&rt, alloc, course.words, &mut files, course.line)?;
    }
    expect_bytes(&rt, files.bytes("out"), &[7; 1024], "record 7");
    Ok(())
}
