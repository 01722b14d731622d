//! Frames written by hand, as `docs/WIRE.md` has them, of a look-up whose every byte is known. The words of its query are 2 for
//! the first eleven numbers of the secrets and 1 for the others, so that the secrets begin with eleven times 1 and are 0 from
//! there on. All further words are 0, so uniform parts and errors are 0 and each row of a ciphertext is its message.
use std::alloc::{AllocError, Global};

/// The place of edge-256 in the table of sets.
pub(crate) const EDGE_256: usize = 4;

/// The place of stream-2048.
pub(crate) const STREAM_2048: usize = 7;

/// A set's headers, by hand: the magic, version 1, the kind, the name behind its length, and the body's length.
#[derive(Clone, Copy)]
pub(crate) struct Headers {
    /// how many numbers the secrets have, n N
    pub(crate) numbers: usize,
    pub(crate) state: &'static [u8],
    pub(crate) query: &'static [u8],
    pub(crate) reply: &'static [u8],
    pub(crate) database: &'static [u8],
}

/// edge-256, with a database of one record of 1024 bytes. A query has 28 ciphertexts of 3 rows of 256 residues of 7 bytes:
/// 150528, 0x24c00. A reply has 16 bytes, 4 times 256 numbers of 10 bits and 2 times 256 of 12: 2064, 0x810.
pub(crate) const EDGE: Headers = Headers {
    numbers: 512,
    state: b"SPIR\x01\x05\x08edge-256\x08\x02\0\0\0\0\0\0",
    query: b"SPIR\x01\x02\x08edge-256\0\x4c\x02\0\0\0\0\0",
    reply: b"SPIR\x01\x03\x08edge-256\x10\x08\0\0\0\0\0\0",
    database: b"SPIR\x01\x06\x08edge-256\x10\x04\0\0\0\0\0\0",
};

/// stream-2048, with a database of one record of 15360 bytes. A query has 200 ciphertexts, 2 for each of 64 places and 24 for
/// each of 3 selections, of 3 rows of 2048 residues of 7 bytes: 8601600, 0x834000. A reply has 16 bytes, 4 times 2048 numbers
/// of 17 bits and 2 times 2048 of 30: 32784, 0x8010.
pub(crate) const STREAM: Headers = Headers {
    numbers: 4096,
    state: b"SPIR\x01\x05\x0bstream-2048\x08\x10\0\0\0\0\0\0",
    query: b"SPIR\x01\x02\x0bstream-2048\0\x40\x83\0\0\0\0\0",
    reply: b"SPIR\x01\x03\x0bstream-2048\x10\x80\0\0\0\0\0\0",
    database: b"SPIR\x01\x06\x0bstream-2048\x10\x3c\0\0\0\0\0\0",
};

/// The count 1 and the length 1024, in 8 bytes each.
const ONE_OF_1024: [u8; 16] = [1, 0, 0, 0, 0, 0, 0, 0, 0, 4, 0, 0, 0, 0, 0, 0];

/// The count 1 and the length 15360 = 0x3c00.
const ONE_OF_15360: [u8; 16] = [1, 0, 0, 0, 0, 0, 0, 0, 0, 0x3c, 0, 0, 0, 0, 0, 0];

/// `count` words of 8 bytes: the first 11 are 2, those of the other numbers 1, and all behind them 0.
pub(crate) fn words_file(
    alloc: Global,
    numbers: usize,
    count: usize,
) -> Result<Vec<u8>, AllocError> {
    let mut bytes = Vec::new(alloc);
    for i in 0..numbers {
        let word: u64 = if i < 11 { 2 } else { 1 };
        bytes.extend_from_slice(&word.to_le_bytes())?;
    }
    bytes.resize(count.saturating_mul(8), 0)?;
    Ok(bytes)
}

/// The State frame of index 0 and those secrets: each number plus 1.
pub(crate) fn state_frame(alloc: Global, headers: Headers) -> Result<Vec<u8>, AllocError> {
    let mut bytes = headers.state.to_vec(alloc)?;
    bytes.extend_from_slice(&[0; 8])?;
    for i in 0..headers.numbers {
        bytes.push(if i < 11 { 2 } else { 1 })?;
    }
    Ok(bytes)
}

/// A Query frame of so many bytes in which all is 0 but Delta, at two places.
fn query_of(
    alloc: Global,
    header: &[u8],
    delta: [u8; 7],
    places: [usize; 2],
    length: usize,
) -> Result<Vec<u8>, AllocError> {
    let mut bytes = header.to_vec(alloc)?;
    bytes.resize(places[0], 0)?;
    bytes.extend_from_slice(&delta)?;
    bytes.resize(places[1], 0)?;
    bytes.extend_from_slice(&delta)?;
    bytes.resize(length, 0)?;
    Ok(bytes)
}

/// The Query frame of edge-256 for index 0. Delta = floor(q / 256) stands at place 0 of row 1 of the first ciphertext, behind
/// 23 bytes of header and 256 residues of 7 bytes, and of row 2 of the second one, 1024 residues further.
pub(crate) fn edge_query(alloc: Global) -> Result<Vec<u8>, AllocError> {
    let delta = *b"\x00\xdf\x1e\x20\xf1\xed\x00";
    query_of(alloc, EDGE.query, delta, [1815, 8983], 150_551)
}

/// The Query frame of stream-2048 for index 0. q is 0xedf1201edf0001, so Delta = floor(q / 2^15) is 0x1dbe2403dbe. It stands
/// at place 0 of row 1 of the first ciphertext, behind 26 bytes of header and 2048 residues, and of row 2 of the second one,
/// 8192 residues further.
pub(crate) fn stream_query(alloc: Global) -> Result<Vec<u8>, AllocError> {
    let delta = *b"\xbe\x3d\x40\xe2\xdb\x01\x00";
    query_of(alloc, STREAM.query, delta, [14362, 71706], 8_601_626)
}

/// The bytes from `first` to 255 and those below it, four times: a record of edge-256, whose values have 8 bits.
pub(crate) fn steps(alloc: Global, first: u8) -> Result<Vec<u8>, AllocError> {
    let mut bytes = Vec::new(alloc);
    let mut step = first;
    for _ in 0..1024 {
        bytes.push(step)?;
        step = step.wrapping_add(1);
    }
    Ok(bytes)
}

/// A record of stream-2048: its values are 0x4001 to 0x4008, again and again. Of 15 bits each, the eight have the bits 0,
/// 16, 30, 31, 47, 60, 62, 76, 77, 90, 91, 92 and 108 of their low parts, and bit 15k + 14 for each k below 8.
pub(crate) fn stream_record(alloc: Global) -> Result<Vec<u8>, AllocError> {
    let mut bytes = Vec::new(alloc);
    for _ in 0..1024 {
        bytes.extend_from_slice(b"\x01\x40\x01\xe0\x00\x90\x00\x58\x00\x34\x00\x1e\x00\x11\x80")?;
    }
    Ok(bytes)
}

/// The Database frame of edge-256 whose one record is `steps`.
pub(crate) fn edge_database(alloc: Global) -> Result<Vec<u8>, AllocError> {
    let mut bytes = EDGE.database.to_vec(alloc)?;
    bytes.extend_from_slice(&ONE_OF_1024)?;
    bytes.extend_from_slice(&steps(alloc, 0)?)?;
    Ok(bytes)
}

/// The Database frame of stream-2048 whose one record is `stream_record`.
pub(crate) fn stream_database(alloc: Global) -> Result<Vec<u8>, AllocError> {
    let mut bytes = STREAM.database.to_vec(alloc)?;
    bytes.extend_from_slice(&ONE_OF_15360)?;
    bytes.extend_from_slice(&stream_record(alloc)?)?;
    Ok(bytes)
}

/// A Reply frame of edge-256 for one record of 1024 bytes: in each entry the number at place v is 4v + more, in 10 bits, four
/// of them in five bytes; row 0 is zero.
pub(crate) fn edge_reply(alloc: Global, more: u8) -> Result<Vec<u8>, AllocError> {
    let mut bytes = EDGE.reply.to_vec(alloc)?;
    bytes.extend_from_slice(&ONE_OF_1024)?;
    for four in 0..256u64 {
        let first = 16 * (four % 64) + u64::from(more);
        let numbers = first + ((first + 4) << 10) + ((first + 8) << 20) + ((first + 12) << 30);
        bytes.extend_from_slice(&numbers.to_le_bytes()[..5])?;
    }
    bytes.resize(2087, 0)?;
    Ok(bytes)
}

/// The Reply frame of stream-2048 whose numbers are four times the values of `stream_record`; row 0 is zero. Of 17 bits each,
/// the eight have the bits 2, 20, 36, 37, 55, 70, 72, 88, 89, 104, 105, 106 and 124 of their low parts, and bit 17k + 16 for
/// each k below 8.
pub(crate) fn stream_reply(alloc: Global) -> Result<Vec<u8>, AllocError> {
    let mut bytes = STREAM.reply.to_vec(alloc)?;
    bytes.extend_from_slice(&ONE_OF_15360)?;
    for _ in 0..1024 {
        bytes.extend_from_slice(
            b"\x04\x00\x11\x00\x32\x00\x84\x00\x48\x01\x10\x03\x20\x07\x40\x10\x80",
        )?;
    }
    bytes.resize(32810, 0)?;
    Ok(bytes)
}
