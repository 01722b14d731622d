//! The program's commands over objects in memory, with the frames of a look-up that was worked out by hand.
ghost use Rattle.std.specs.Prelude.{◌≡◌, false};

use crate::frames::{
    EDGE, STREAM, edge_database, edge_query, edge_reply, state_frame, steps, stream_database,
    stream_query, stream_record, stream_reply, words_file,
};
use pir_io::{MemFiles, MemSink, Net, OpenGate, SoundNet};
use std::alloc::{AllocError, Global};
use std::process::Abort;
use std::test::Fail;
use std::thread::Threads;
use tool_run::run;

/// Runs the program on these words and that net.
pub(crate) fn status_over<R: Threads + Sync, N: Net>(
    rt: &R,
    alloc: Global,
    words: &[&str],
    files: &mut MemFiles,
    net: &mut N,
    sink: &mut MemSink,
) -> Result<u8, AllocError>
    requires { (N.seen net.old).is_open ≡ false }
{
    let mut args = Vec::new(alloc);
    for word in words {
        args.push(String::from_str(alloc, word)?)?;
    }
    Ok(run(rt, alloc, &args, files, net, &OpenGate, sink))
}

/// Runs the program on these words, without a net.
pub(crate) fn status_of<R: Threads + Sync>(
    rt: &R,
    alloc: Global,
    words: &[&str],
    files: &mut MemFiles,
    sink: &mut MemSink,
) -> Result<u8, AllocError> {
    let mut net = SoundNet::new(alloc, Vec::new(alloc), 1);
    status_over(rt, alloc, words, files, &mut net, sink)
}

pub(crate) fn expect_bytes(rt: &impl Abort, bytes: Option<&[u8]>, want: &[u8], name: &str) {
    let bytes = bytes.expect(rt, "bytes");
    assert!(rt; bytes == want, "{name}");
}

/// An output of a command: its name, that of the input with the bytes that it gets, and the number of the call of the files
/// that creates it. The next call appends the bytes.
type Output = (&'static str, &'static str, u64);

/// A command on the inputs, the line that it puts, and what it writes.
#[derive(Clone, Copy)]
struct Course {
    words: &'static [&'static str],
    line: &'static [u8],
    /// how many calls of the files it makes
    calls: u64,
    outputs: &'static [Output],
}

/// A look-up. `prepare` reads its input by two calls, of which the second tells its end. `ask` reads its words by four, in
/// pieces of 65536 bytes, and so does `noise`. `answer` reads the database's first numbers by one and all of it by two, by one that SETUP is
/// empty, and QUERY by four: three pieces and its end. `open` reads each of its inputs by two.
const LOOK_UP: [Course; 5] = [
    Course {
        words: &["prepare", "edge-256", "1024", "record", "new_db"],
        line: b"database edge-256 1 records of 1024 bytes\n",
        calls: 4,
        outputs: &[("new_db", "db", 2)],
    },
    Course {
        words: &[
            "ask",
            "edge-256",
            "0",
            "words:words",
            "new_state",
            "new_setup",
            "new_query",
        ],
        line: b"query edge-256 setup 0 bytes query 150551 bytes\n",
        calls: 10,
        outputs: &[
            ("new_state", "state", 4),
            ("new_setup", "setup", 6),
            ("new_query", "query", 8),
        ],
    },
    Course {
        words: &["noise", "edge-256", "0", "words:words"],
        line: b"set edge-256 index 0 rows 2\n\
            row 1 noise 128 secret 11 left 263355196006756020649984 right 280912209073579885592576\n\
            row 2 noise 128 secret 0 left 70228052268669849305088 right 280912209073579885592576\n\
            fits yes\n",
        calls: 4,
        outputs: &[],
    },
    Course {
        words: &["answer", "db", "setup", "query", "new_reply", "3"],
        line: b"reply edge-256 2087 bytes\n",
        calls: 10,
        outputs: &[("new_reply", "reply", 8)],
    },
    Course {
        words: &["open", "state", "reply", "new_record"],
        line: b"record 1024 bytes\n",
        calls: 6,
        outputs: &[("new_record", "record", 4)],
    },
];

/// All that a look-up takes and makes. The listed calls fail.
pub(crate) fn inputs(alloc: Global, fail: Vec<u64>) -> Result<MemFiles, Fail> {
    let mut files = MemFiles::new(alloc, fail);
    files.with("record", &steps(alloc, 0)?)?;
    files.with("words", &words_file(alloc, EDGE.numbers, 29184)?)?;
    files.with("db", &edge_database(alloc)?)?;
    files.with("state", &state_frame(alloc, EDGE)?)?;
    files.with("setup", b"")?;
    files.with("query", &edge_query(alloc)?)?;
    files.with("reply", &edge_reply(alloc, 0)?)?;
    Ok(files)
}

/// Each output is what the calls before the failing one made of it: nothing, then the first half of its bytes where that
/// call appends them, then all of them.
fn expect_outputs(rt: &impl Abort, files: &MemFiles, outputs: &[Output], failing: u64) {
    for (name, same, made) in outputs {
        let want = files.bytes(same).expect(rt, "an input");
        if failing <= *made {
            assert!(rt; files.bytes(name).is_none(), "{name}, call {failing}");
        } else if failing - *made == 1 {
            expect_bytes(rt, files.bytes(name), &want[..want.len() / 2], name);
        } else {
            expect_bytes(rt, files.bytes(name), want, name);
        }
    }
}

/// Runs a command whose call of that number fails, or none where it makes so many.
fn expect_course<R: Abort + Threads + Sync>(
    rt: &R,
    alloc: Global,
    course: Course,
    failing: u64,
) -> Result<(), Fail> {
    let mut files = inputs(alloc, vec![in alloc; failing]?)?;
    let mut sink = MemSink::new(alloc, Vec::new(alloc));
    let status = status_of(rt, alloc, course.words, &mut files, &mut sink)?;
    let (want, line) = if failing == course.calls {
        (0, course.line)
    } else {
        (7, b"file fault\n".as_slice())
    };
    assert_eq!(rt; status, want, "call {failing}");
    assert_eq!(rt; sink.bytes(), line, "call {failing}");
    expect_outputs(rt, &files, course.outputs, failing);
    Ok(())
}

/// Each call in turn, and none.
fn expect_courses<R: Abort + Threads + Sync>(
    rt: &R,
    alloc: Global,
    course: Course,
) -> Result<(), Fail> {
    for failing in 0..=course.calls {
        expect_course(rt, alloc, course, failing)?;
    }
    Ok(())
}

#[test]
fn each_command_does_its_part_and_each_failing_call_is_a_file_fault(
    rt: HostRuntime,
) -> Result<(), Fail> {
    for course in LOOK_UP {
        expect_courses(&rt, rt.alloc(), course)?;
    }
    Ok(())
}

#[test]
fn a_failing_sink_leaves_the_outputs(rt: HostRuntime) -> Result<(), Fail> {
    let alloc = rt.alloc();
    for course in LOOK_UP {
        let mut files = inputs(alloc, Vec::new(alloc))?;
        let mut sink = MemSink::new(alloc, vec![in alloc; 0]?);
        let status = status_of(&rt, alloc, course.words, &mut files, &mut sink)?;
        assert_eq!(rt; status, 14);
        assert_eq!(rt; sink.bytes(), &course.line[..course.line.len() / 2]);
        expect_outputs(&rt, &files, course.outputs, course.calls);
    }
    let mut files = MemFiles::new(alloc, Vec::new(alloc));
    let mut sink = MemSink::new(alloc, vec![in alloc; 0]?);
    assert_eq!(rt; status_of(&rt, alloc, &["open"], &mut files, &mut sink)?, 2);
    assert_eq!(rt; sink.bytes(), b"usa".as_slice());
    Ok(())
}

// Each number 4v + 2 is an exact half of a step above value v, so it opens to v + 1. 0, 4, 8, 12 are packed as
// 0 + 4 * 2^10 + 8 * 2^20 + 12 * 2^30, and 2, 6, 10, 14 likewise. Before them stand 23 bytes of header and two numbers of 8.
#[test]
fn an_exact_half_is_opened_upwards(rt: HostRuntime) -> Result<(), Fail> {
    let alloc = rt.alloc();
    let exact = edge_reply(alloc, 0)?;
    let half = edge_reply(alloc, 2)?;
    expect_bytes(&rt, exact.get(39..44), b"\x00\x10\x80\x00\x03", "4v");
    expect_bytes(&rt, half.get(39..44), b"\x02\x18\xa0\x80\x03", "4v + 2");
    let mut files = MemFiles::new(alloc, Vec::new(alloc));
    files.with("state", &state_frame(alloc, EDGE)?)?;
    files.with("half", &half)?;
    let mut sink = MemSink::new(alloc, Vec::new(alloc));
    let words = ["open", "state", "half", "out"];
    assert_eq!(rt; status_of(&rt, alloc, &words, &mut files, &mut sink)?, 0);
    expect_bytes(&rt, files.bytes("out"), &steps(alloc, 1)?, "4v + 2");
    Ok(())
}

// The words of the seed of zeros are the published key stream of ChaCha20 for a key and a nonce of zeros. Its first 64 bytes
//   76b8e0ada0f13d90 405d6ae55386bd28 bdd219b8a08ded1a a836efcc8b770dc7
//   da41597c5157488d 7724e03fb8d84a37 6a43b8f41518a11c c387b669b2ee6586
// are eight words. A secret byte is the word modulo 3, which is the sum of its bytes modulo 3; these sums are 1305, 938, 1172,
// 1135, 877, 971, 835 and 1268.
#[test]
fn a_seed_gives_the_words(rt: HostRuntime) -> Result<(), Fail> {
    let alloc = rt.alloc();
    let mut files = MemFiles::new(alloc, Vec::new(alloc));
    files.with("zeros", &[0; 33])?;
    let mut sink = MemSink::new(alloc, Vec::new(alloc));
    let words = [
        "ask",
        "tiny-stream",
        "3",
        "seed:zeros",
        "state",
        "setup",
        "query",
    ];
    assert_eq!(rt; status_of(&rt, alloc, &words, &mut files, &mut sink)?, 0);
    let state = files.bytes("state").expect(&rt, "a state");
    let mut front = b"SPIR\x01\x05\x0btiny-stream\x08\x02\0\0\0\0\0\0".to_vec(alloc)?;
    front.extend_from_slice(&[3, 0, 0, 0, 0, 0, 0, 0, 0, 2, 2, 1, 1, 2, 1, 2])?;
    assert!(rt; state.starts_with(&front));
    Ok(())
}

// Its values have 15 bits, which divide no byte.
#[test]
fn stream_2048_is_asked_prepared_and_opened(rt: HostRuntime) -> Result<(), Fail> {
    let alloc = rt.alloc();
    let record = stream_record(alloc)?;
    let mut files = MemFiles::new(alloc, Vec::new(alloc));
    files.with("words", &words_file(alloc, STREAM.numbers, 1_642_496)?)?;
    files.with("record", &record)?;
    files.with("reply", &stream_reply(alloc)?)?;
    let mut sink = MemSink::new(alloc, Vec::new(alloc));
    for words in [
        [
            "ask",
            "stream-2048",
            "0",
            "words:words",
            "state",
            "setup",
            "query",
        ]
        .as_slice(),
        ["prepare", "stream-2048", "15360", "record", "db"].as_slice(),
        ["open", "state", "reply", "out"].as_slice(),
    ] {
        assert_eq!(rt; status_of(&rt, alloc, words, &mut files, &mut sink)?, 0);
    }
    let state = state_frame(alloc, STREAM)?;
    expect_bytes(&rt, files.bytes("state"), &state, "state");
    expect_bytes(&rt, files.bytes("query"), &stream_query(alloc)?, "query");
    expect_bytes(&rt, files.bytes("db"), &stream_database(alloc)?, "db");
    expect_bytes(&rt, files.bytes("out"), &record, "out");
    Ok(())
}
