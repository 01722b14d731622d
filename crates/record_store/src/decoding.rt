ghost use Rattle.std.specs.Prelude.{◌≡◌, ◌+◌, ◌*◌, ◌<◌, ◌≤◌, length, drop, Some, All};
ghost use Rattle.spiral_model.specs.Sets.{IsSet};
ghost use Rattle.spiral_frames.specs.Checks.{checked, set_in, header_len_in, body_len_in};
ghost use Rattle.spiral_frames.specs.FrameChecks.{database_checks, front_outcome};
ghost use Rattle.record_store.specs.Decoding.{ReadsNumbers, Decodes};

use crate::Database;
use frame_headers::{FrameError, HeaderRead, number_at, read_header};
use spiral_sets::ParamSet;

/// Databases alone, kind 6, are accepted.
const DATABASES: u8 = 1 << 6;

/// The first numbers of a database's frame.
#[derive(Clone, Copy, Debug)]
pub(crate) struct Front {
    set: ParamSet,
    count: u32,
    length: u32,
    /// where the records start
    start: usize,
}

impl Front {
    /// How many bytes the frame has.
    pub(crate) fn frame_len(&self) -> usize
        requires { self.now.start ≤ 286 }
        ensures { result ≡ self.now.start + self.now.count * self.now.length }
    {
        self.start + self.count as usize * self.length as usize
    }
}

/// The first numbers of a database's frame, from its first bytes. They need not go further than those numbers.
pub(crate) fn read_numbers(bytes: &[u8]) -> Result<Front, FrameError>
    ensures reads { ReadsNumbers bytes.now (front_outcome bytes.now) result }
    ensures are_bytes { All (λ b. b < 256) bytes.now }
{
    match read_header(bytes, DATABASES) {
        HeaderRead::More => Err(short(bytes)),
        HeaderRead::Refused(error) => Err(error),
        HeaderRead::Whole {
            set,
            body,
            used,
            ..
        } => numbers_behind(bytes, set, body, used as usize),
    }
}

/// That the bytes end too soon.
fn short(bytes: &[u8]) -> FrameError
    ensures { result ≡ FrameError.Short (length bytes.now) }
{
    FrameError::Short {
        place: bytes.len() as u64,
    }
}

/// The first numbers behind a header of `start` bytes.
fn numbers_behind(bytes: &[u8], set: ParamSet, body: u64, start: usize) -> Result<Front, FrameError>
    requires known { IsSet set }
    requires named { set_in bytes.now ≡ Some set }
    requires start { start ≡ header_len_in bytes.now }
    requires body { body ≡ body_len_in bytes.now }
    ensures { ReadsNumbers bytes.now (checked (database_checks set bytes.now) (length bytes.now)) result }
{
    if bytes.len() < start + 8 {
        return Err(short(bytes));
    }
    let count = number_at(bytes, start);
    if count > set.max_records() {
        return Err(FrameError::TooMany {
            place: start as u64,
            value: count,
        });
    }
    if bytes.len() < start + 16 {
        return Err(short(bytes));
    }
    let length = number_at(bytes, start + 8);
    if length == 0 || length > set.capacity() {
        return Err(FrameError::RecordLength {
            place: start as u64 + 8,
            value: length,
        });
    }
    if body != 16 + count * length {
        return Err(FrameError::Ragged {
            place: start as u64 - 8,
            value: body,
        });
    }
    Ok(Front {
        set,
        count: count as u32,
        length: length as u32,
        start: start + 16,
    })
}

/// The database whose frame the bytes are. It takes no memory.
pub(crate) fn decode(bytes: Vec<u8>) -> Result<Database, FrameError>
    ensures { Decodes bytes.items result }
{
    let front = read_numbers(&bytes)?;
    let frame_len = front.frame_len();
    if bytes.len() < frame_len {
        return Err(short(&bytes));
    }
    if bytes.len() > frame_len {
        return Err(FrameError::Extra {
            place: frame_len as u64,
        });
    }
    Ok(Database {
        set: front.set,
        length: front.length,
        records: without_front(bytes, front.start),
    })
}

/// The bytes from a place on.
fn without_front(mut bytes: Vec<u8>, place: usize) -> Vec<u8>
    requires { place ≤ length bytes.items }
    ensures { result.items ≡ drop place bytes.items }
{
    bytes.drain(..place);
    bytes
}
