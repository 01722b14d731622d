//! The client's two calls, and the readers of frames.
use crate::frames::{EDGE, EDGE_256, edge_query, edge_reply, state_frame};
use frame_headers::FrameKind;
use modulus_switch::{ClientState, Reply};
use noise_check::fits;
use pir_client::{AskError, OpenError, ask, measure_for, open};
use pir_wire::{decode, reading_limit};
use regev_code::QueryBody;
use spiral_sets::set_at;
use std::test::Fail;

// Under the words of `frames` the secrets begin with eleven times 1. Each value of a reply of zeros is 0.
#[test]
fn a_record_is_asked_for_and_opened(rt: HostRuntime) -> Result<(), Fail> {
    let alloc = rt.alloc();
    let set = set_at(EDGE_256);
    let mut words = vec![in alloc; 2u64; 11]?;
    words.resize(512, 1)?;
    words.resize(29184, 0)?;
    let asked = ask(alloc, &set, 0, &words)?;
    assert_eq!(rt; asked.setup.len(), 0);
    assert_eq!(rt; asked.query.as_slice(), edge_query(alloc)?.as_slice());
    assert_eq!(rt; asked.state.index, 0);
    let row = asked.report.rows.first().ok_or("no row")?;
    assert_eq!(rt; (row.row, row.noise, row.secret), (1, 128, 11));
    assert_eq!(rt; row.left, Some(263355196006756020649984));
    assert_eq!(rt; row.right, 280912209073579885592576);
    let mut secret = vec![in alloc; 1i8; 11]?;
    secret.resize(512, 0)?;
    assert_eq!(rt; asked.state.secret.as_slice(), secret.as_slice());
    assert!(rt; 1 <= set.max_records());
    assert!(rt; 3 <= set.capacity());
    let reply = Reply::zero(alloc, &set, 1, 3)?;
    let record = open(alloc, &asked.state, &reply)?;
    assert_eq!(rt; record.as_slice(), [0, 0, 0].as_slice());
    Ok(())
}

// With twelve times 1 in the secret row 1 isn't below the right side any more: 2 p q1 q2 128 + p q q2 + 12 p q q1, with p = 2^8,
// q1 = 2^10, q2 = 2^12.
#[test]
fn noise_is_measured_and_a_query_with_too_much_is_refused(rt: HostRuntime) -> Result<(), Fail> {
    let alloc = rt.alloc();
    let set = set_at(EDGE_256);
    let mut words = vec![in alloc; 2u64; 12]?;
    words.resize(512, 1)?;
    words.resize(29184, 0)?;
    let report = measure_for(alloc, &set, 0, &words)?;
    let row = report.rows.first().ok_or("no row")?;
    assert_eq!(rt; (row.row, row.noise, row.secret), (1, 128, 12));
    assert_eq!(rt; row.left, Some(280912209073854763499520));
    assert!(rt; !fits(&report));
    let refused = AskError::TooNoisy { row: 1, noise: 128 };
    assert_eq!(rt; ask(alloc, &set, 0, &words).err(), Some(refused));
    let range = AskError::IndexRange { index: 4, bound: 4 };
    assert_eq!(rt; measure_for(alloc, &set, 4, &words).err(), Some(range));
    Ok(())
}

#[test]
fn frames_are_read(rt: HostRuntime) -> Result<(), Fail> {
    let alloc = rt.alloc();
    let query = decode::<QueryBody>(alloc, &edge_query(alloc)?)?.ok_or("no query")?;
    assert_eq!(rt; (query.set.name(), query.ciphers.len()), ("edge-256", 28));
    let state = decode::<ClientState>(alloc, &state_frame(alloc, EDGE)?)?.ok_or("no state")?;
    assert_eq!(rt; (state.set.name(), state.index), ("edge-256", 0));
    assert_eq!(rt; state.secret.first(), Some(&1));
    let reply = decode::<Reply>(alloc, &edge_reply(alloc, 0)?)?.ok_or("no reply")?;
    assert_eq!(rt;
        (reply.set().name(), reply.count(), reply.length()),
        ("edge-256", 1, 1024)
    );
    Ok(())
}

// One byte more than the longest frame of any set. Of streampack-2048, with 30 bytes of header, a State has 8 and 4 * 2048, and a Reply
// 16, 16 * 2048 * 14 / 8 and 4 * 2048 * 30 / 8. Of pack-2048, with 24 of header, a Setup has 28 + 6 * 8 + 5 * 28 + 8 ciphertexts of 2
// rows and 4 * 8 of 5 rows, 2048 * 7 bytes a row. Of stream-2048, with 26 of header, a Query has 200 * 3 * 2048 * 7.
#[test]
fn the_longest_frame_of_any_set_is_read(rt: HostRuntime) {
    assert_eq!(rt; reading_limit(FrameKind::State), 8231);
    assert_eq!(rt; reading_limit(FrameKind::Reply), 88_111);
    assert_eq!(rt; reading_limit(FrameKind::Setup), 8_716_313);
    assert_eq!(rt; reading_limit(FrameKind::Query), 8_601_627);
}

#[test]
fn errors_have_a_text(rt: HostRuntime) -> Result<(), Fail> {
    let alloc = rt.alloc();
    let range = AskError::IndexRange { index: 4, bound: 4 };
    let absent = OpenError::Absent { index: 1, count: 1 };
    let noisy = AskError::TooNoisy { row: 1, noise: 128 };
    let text = format!(in alloc; "{range}; {noisy}; {absent}")?;
    let want =
        "index 4 is not below 4; the noise 128 of row 1 is too large; index 1 is not below the count 1";
    assert_eq!(rt; text.as_str(), want);
    Ok(())
}
