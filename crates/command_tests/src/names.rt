//! The parameter sets and the headers of frames.
use crate::frames::EDGE_256;
use frame_headers::{FrameError, FrameKind, HeaderRead, number_at, push_header, read_header};
use spiral_sets::{digit_count, set_at, set_named};
use std::test::Fail;

/// The names, in the order of the ids, how many bytes each set's records have at most, and whether the set has keys.
const NAMES: [(&str, u64, bool); 10] = [
    ("tiny-spiral", 256, true),
    ("tiny-pack", 256, true),
    ("tiny-stream", 1024, false),
    ("tiny-streampack", 1024, true),
    ("edge-256", 1024, false),
    ("spiral-2048", 8192, true),
    ("pack-2048", 32768, true),
    ("stream-2048", 15360, false),
    ("streampack-2048", 49152, true),
    ("big-2048", 8192, true),
];

#[test]
fn sets_are_found_by_their_names(rt: HostRuntime) -> Result<(), Fail> {
    for (i, (name, capacity, has_keys)) in NAMES.iter().enumerate() {
        let set = set_at(i);
        assert_eq!(rt; set_named(name).ok_or("no set")?, set, "{name}");
        assert_eq!(rt; set.name(), *name);
        assert_eq!(rt; set.capacity(), *capacity, "{name}");
        assert_eq!(rt; set.has_keys(), *has_keys, "{name}");
    }
    Ok(())
}

// q = 0xedf1201edf0001, so Delta is q without its last byte. A residue has 8 digits of 7 bits, and a GSW ciphertext 8 columns
// for each of the rows 0 to 2.
#[test]
fn edge_256_has_its_numbers(rt: HostRuntime) {
    let set = set_at(EDGE_256);
    assert!(rt; set.is(&set));
    assert_eq!(rt;
        (set.p(), set.q1_bits(), set.q1(), set.q2()),
        (256, 10, 1024, 4096)
    );
    assert_eq!(rt; set.delta(), 0xedf1201edf00);
    assert_eq!(rt; (set.rows(), set.columns(), set.entries()), (2, 2, 4));
    assert_eq!(rt; (set.places(), set.folded_places(), set.rho()), (2, 2, 3));
    assert_eq!(rt; (set.firsts_count(), set.gsw_count()), (4, 24));
    assert_eq!(rt;
        (set.has_keys(), set.least_width(), digit_count(7)),
        (false, 7, 8)
    );
    assert_eq!(rt; (set.max_records(), set.words_needed()), (4, 29184));
    assert_eq!(rt; (set.setup_len(), set.query_len()), (0, 150_528));
    assert_eq!(rt; (set.reply_len(), set.state_len()), (2064, 520));
}

/// The header of a Database frame of edge-256 whose body has 24 bytes: the magic, version 1, kind 6, the name behind its
/// length, and the body's length.
const HEADER: &[u8] = b"SPIR\x01\x06\x08edge-256\x18\0\0\0\0\0\0\0";

/// Accepts frames of that kind alone.
const DATABASES: u8 = 0x40;

#[test]
fn a_header_is_written_and_read(rt: HostRuntime) -> Result<(), Fail> {
    let set = set_at(EDGE_256);
    let kind = FrameKind::Database;
    assert_eq!(rt; FrameKind::from_code(6), Some(kind));
    assert_eq!(rt; kind.body_len(&set), 16);
    let mut bytes = Vec::new(rt.alloc());
    push_header(&mut bytes, kind.code(), &set, 24)?;
    assert_eq!(rt; bytes.as_slice(), HEADER);
    let whole = HeaderRead::Whole {
        kind: 6,
        set,
        body: 24,
        used: 23,
    };
    assert_eq!(rt; read_header(HEADER, DATABASES), whole);
    assert_eq!(rt; number_at(HEADER, 15), 24);
    let refusal = FrameError::Magic { place: 3 };
    assert_eq!(rt;
        read_header(b"SPIS", DATABASES),
        HeaderRead::Refused(refusal)
    );
    assert_eq!(rt; (refusal.code(), refusal.place()), (2, 3));
    Ok(())
}
