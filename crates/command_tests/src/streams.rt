//! Frames read from an input that comes in pieces.
ghost use Rattle.std.specs.Prelude.{◌<◌, length};
ghost use Rattle.frame_streams.specs.Decoding.{AreKinds, HasRoom};

use crate::frames::{EDGE, edge_query, edge_reply, state_frame};
use frame_headers::FrameError;
use pir_wire::{Decoder, FeedError, Message};
use std::alloc::Global;
use std::process::Abort;
use std::test::Fail;

/// Accepts the kinds Query, Reply and State.
const READ_HERE: u8 = 0x2c;

/// Accepts the kinds Setup and Query.
const SERVED_HERE: u8 = 0x06;

/// Accepts the kinds Query and Refuse.
const REFUSED_HERE: u8 = 0x14;

/// The Refuse frame of edge-256 with code 7 and place 258: 23 bytes of header, whose body length is 9, the code, and the place.
const REFUSE: &[u8] = b"SPIR\x01\x04\x08edge-256\x09\0\0\0\0\0\0\0\x07\x02\x01\0\0\0\0\0\0";

/// Feeds bytes in pieces of so many. The most bytes that were kept behind a piece without being part of a message yet.
fn feed_in_pieces(decoder: &mut Decoder, bytes: &[u8], size: usize) -> Result<usize, FeedError>
    requires some { 0 < size }
    requires room { HasRoom decoder.old (length bytes.now) }
{
    let mut most = 0;
    let mut place = 0;
    while place < bytes.len() {
        let count = size.min(bytes.len() - place);
        decoder.feed(&bytes[place..place + count])?;
        most = most.max(decoder.held());
        place += count;
    }
    Ok(most)
}

/// A decoder of these kinds that has read the bytes in pieces of so many.
fn read_in_pieces(alloc: Global, kinds: u8, bytes: &[u8], size: usize) -> Result<Decoder, Fail>
    requires kinds { AreKinds kinds }
    requires some { 0 < size }
{
    let mut decoder = Decoder::new(alloc, kinds)?;
    let _most = feed_in_pieces(&mut decoder, bytes, size)?;
    Ok(decoder)
}

/// What a message is, and one of its numbers: those of a secret, the ciphertexts, the length of records, or the place.
fn described(message: &Message) -> (&'static str, usize) {
    match message {
        Message::Setup(keys) => ("setup", keys.ciphers.len()),
        Message::Query(query) => ("query", query.ciphers.len()),
        Message::Reply(reply) => ("reply", reply.length() as usize),
        Message::Refuse { at, .. } => ("refuse", *at as usize),
        Message::State(state) => ("state", state.secret.len()),
    }
}

/// The next message is of that kind and number, and its frame begins at that place.
fn expect_next(
    rt: &impl Abort,
    decoder: &mut Decoder,
    kind: &str,
    number: usize,
    start: u64,
) -> Result<(), Fail> {
    let message = decoder.take().ok_or("no message")?;
    assert_eq!(rt; described(&message), (kind, number));
    assert_eq!(rt; decoder.start(), start);
    Ok(())
}

/// A State, a Query and a Reply frame of edge-256, one behind the other: 543, 150551 and 2087 bytes.
fn three_frames(alloc: Global) -> Result<Vec<u8>, Fail> {
    let mut input = state_frame(alloc, EDGE)?;
    input.extend_from_slice(&edge_query(alloc)?)?;
    input.extend_from_slice(&edge_reply(alloc, 0)?)?;
    Ok(input)
}

/// The three frames are read from pieces of so many bytes.
fn expect_three(rt: &impl Abort, alloc: Global, size: usize) -> Result<(), Fail>
    requires { 0 < size }
{
    let input = three_frames(alloc)?;
    let mut decoder = read_in_pieces(alloc, READ_HERE, &input, size)?;
    expect_next(rt, &mut decoder, "state", 512, 0)?;
    expect_next(rt, &mut decoder, "query", 28, 543)?;
    expect_next(rt, &mut decoder, "reply", 1024, 151_094)?;
    assert!(rt; decoder.take().is_none());
    assert_eq!(rt; decoder.held(), 0);
    Ok(())
}

#[test]
fn frames_are_read_in_pieces_of_a_byte(rt: HostRuntime) -> Result<(), Fail> {
    expect_three(&rt, rt.alloc(), 1)
}

#[test]
fn frames_are_read_in_pieces_of_seven_bytes(rt: HostRuntime) -> Result<(), Fail> {
    expect_three(&rt, rt.alloc(), 7)
}

/// What a decoder of the kinds Query and Refuse says of an input: at a refusal it says the same of a piece more.
fn refusal_of(alloc: Global, bytes: &[u8]) -> Result<Option<FrameError>, FeedError> {
    let mut decoder = Decoder::new(alloc, REFUSED_HERE).map_err(|_| FeedError::NoMemory)?;
    match decoder.feed(bytes) {
        Ok(()) => Ok(decoder.finish().err()),
        Err(FeedError::Frame(_)) => match decoder.feed(REFUSE) {
            Ok(()) => Ok(None),
            Err(FeedError::Frame(error)) => Ok(Some(error)),
            Err(FeedError::NoMemory) => Err(FeedError::NoMemory),
        },
        Err(FeedError::NoMemory) => Err(FeedError::NoMemory),
    }
}

/// An input that begins with a Refuse frame, of 32 bytes, and goes on so is refused for that.
fn expect_refusal(
    rt: &impl Abort,
    alloc: Global,
    more: &[u8],
    want: Option<FrameError>,
) -> Result<(), Fail> {
    let mut input = REFUSE.to_vec(alloc)?;
    input.extend_from_slice(more)?;
    assert_eq!(rt; refusal_of(alloc, &input)?, want);
    Ok(())
}

// The first residue of a Query stands behind 23 bytes of header; seven bytes of 255 write 2^56 - 1.
#[test]
fn refusals_have_their_places_in_the_input(rt: HostRuntime) -> Result<(), Fail> {
    let alloc = rt.alloc();
    expect_refusal(&rt, alloc, b"", None)?;
    expect_refusal(&rt, alloc, b"SPI", Some(FrameError::Short { place: 35 }))?;
    expect_refusal(&rt, alloc, b"SPIX", Some(FrameError::Magic { place: 35 }))?;
    let mut query = EDGE.query.to_vec(alloc)?;
    query.extend_from_slice(&[255; 7])?;
    let residue = FrameError::Residue {
        place: 55,
        value: 72_057_594_037_927_935,
        bound: 66_974_689_739_603_969,
    };
    expect_refusal(&rt, alloc, &query, Some(residue))
}

#[test]
fn a_refuse_frame_is_read(rt: HostRuntime) -> Result<(), Fail> {
    let mut decoder = read_in_pieces(rt.alloc(), REFUSED_HERE, REFUSE, 5)?;
    expect_next(&rt, &mut decoder, "refuse", 258, 0)
}

#[test]
fn a_header_that_has_come_in_part_is_held(rt: HostRuntime) -> Result<(), Fail> {
    let decoder = read_in_pieces(rt.alloc(), REFUSED_HERE, &REFUSE[..10], 3)?;
    assert_eq!(rt; decoder.held(), 10);
    Ok(())
}

/// A Setup and a Query frame of tiny-pack, 1605656 and 3608 bytes, whose residues are 0. The keys are 420 ciphertexts: 56 for each of five rounds and 28 for
/// each of two, 56 to lift and 28 to translate.
fn pack_frames(alloc: Global) -> Result<Vec<u8>, Fail> {
    let mut input = b"SPIR\x01\x01\x09tiny-pack\0\x80\x18\0\0\0\0\0".to_vec(alloc)?;
    input.resize(1_605_656, 0)?;
    input.extend_from_slice(b"SPIR\x01\x02\x09tiny-pack\0\x0e\0\0\0\0\0\0")?;
    input.resize(1_609_264, 0)?;
    Ok(input)
}

/// Of a header of 24 bytes or of a residue of 7, so many bytes are kept at most where pieces have that size.
const KEPT: [(usize, usize); 4] = [(1, 23), (7, 21), (4096, 6), (65536, 6)];

/// The frames are read in pieces of that size, and so many bytes are kept at most.
fn expect_kept(rt: &impl Abort, alloc: Global, size: usize, most: usize) -> Result<(), Fail>
    requires { 0 < size }
{
    let mut decoder = Decoder::new(alloc, SERVED_HERE)?;
    let input = pack_frames(alloc)?;
    assert_eq!(rt; feed_in_pieces(&mut decoder, &input, size)?, most);
    expect_next(rt, &mut decoder, "setup", 420, 0)?;
    expect_next(rt, &mut decoder, "query", 1, 1_605_656)?;
    Ok(())
}

#[test]
fn few_bytes_of_a_setup_are_kept(rt: HostRuntime) -> Result<(), Fail> {
    for (size, most) in &KEPT {
        expect_kept(&rt, rt.alloc(), *size, *most)?;
    }
    Ok(())
}
