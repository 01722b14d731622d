ghost use Rattle.std.specs.Prelude.{◌≡◌, ◌+◌, ◌++◌, ◌<◌, ◌≤◌, length, [], ◌∷◌, Some, IfOk, IfSome};
ghost use Rattle.spiral_sets.specs.Sets.{IsSet, set_of};
ghost use Rattle.frame_headers.specs.Headers.{header};
ghost use Rattle.frame_headers.specs.Checks.{header_read, version_checks, name_checks, body_check, read_by, checked, accepts, set_in, needed_of, wrong_length, number_at as number_in};

use crate::{FrameError, FrameKind};
use no_memory::NoMemory;
use spiral_sets::{ParamSet, set_at};

/// The bytes that every frame begins with.
const MAGIC: [u8; 4] = [b'S', b'P', b'I', b'R'];

/// The only version of frames.
const VERSION: u8 = 1;

/// How many parameter sets there are.
const SETS_COUNT: usize = 10;

/// Where the header's name begins, behind its length.
const NAME_PLACE: usize = 7;

/// What the front of an input is, read as the header of a frame.
#[derive(Clone, Copy, Debug, PartialEq, Eq)]
pub enum HeaderRead {
    /// The input ends inside the header, and nothing in it is wrong so far.
    More,
    /// It isn't the header of a frame.
    Refused(FrameError),
    /// A whole header of `used` bytes: the frame's kind, its set, and how many bytes its body has.
    Whole {
        kind: u8,
        set: ParamSet,
        body: u64,
        used: u32,
    },
}

/// Reads one frame header from the front of the bytes: the magic "SPIR", version 1, the kind, the name of a set
/// behind its length, and the body's length. Bit k of `kinds` says that kind k is accepted; a name that
/// no set has is refused.
///
/// The first byte that is wrong gives the refusal, as soon as it is there.
pub fn read_header(bytes: &[u8], kinds: u8) -> HeaderRead
    ensures { result ≡ header_read bytes.now kinds }
{
    for place in 0..MAGIC.len() {
        if bytes.len() <= place {
            return HeaderRead::More;
        }
        if bytes[place] != MAGIC[place] {
            let place = place as u64;
            return HeaderRead::Refused(FrameError::Magic { place });
        }
    }
    read_version(bytes, kinds)
}

/// Reads a header from its version on.
fn read_version(bytes: &[u8], kinds: u8) -> HeaderRead
    ensures { result ≡ read_by (checked (version_checks kinds bytes.now) (length bytes.now)) bytes.now }
{
    if bytes.len() <= 4 {
        return HeaderRead::More;
    }
    let version = bytes[4];
    if version != VERSION {
        return HeaderRead::Refused(FrameError::Version {
            place: 4,
            value: version,
        });
    }
    if bytes.len() <= 5 {
        return HeaderRead::More;
    }
    let kind = bytes[5];
    if !is_accepted(kinds, kind) {
        return HeaderRead::Refused(FrameError::Kind {
            place: 5,
            value: kind,
        });
    }
    read_name(bytes)
}

/// Whether bit `kind` of `kinds` is set.
fn is_accepted(kinds: u8, kind: u8) -> bool
    ensures { result ≡ accepts kinds kind }
{
    kind < 8 && kinds >> kind & 1 == 1
}

/// Reads a header from the length of its name on.
fn read_name(bytes: &[u8]) -> HeaderRead
    ensures { result ≡ read_by (checked (name_checks bytes.now) (length bytes.now)) bytes.now }
{
    if bytes.len() < NAME_PLACE {
        return HeaderRead::More;
    }
    let place = NAME_PLACE + bytes[6] as usize;
    if bytes.len() < place {
        return HeaderRead::More;
    }
    match set_of_name(&bytes[NAME_PLACE..place]) {
        None => HeaderRead::Refused(FrameError::UnknownSet { place: 7 }),
        Some(set) => read_body_len(bytes, set),
    }
}

/// The set of a name; `None` exactly where no set has it.
fn set_of_name(name: &[u8]) -> Option<ParamSet>
    ensures value { result ≡ set_of name.now }
    ensures known { IfSome result (λ set. IsSet set) }
{
    for i in 0..SETS_COUNT {
        let set = set_at(i);
        if name == set.name().as_bytes() {
            return Some(set);
        }
    }
    None
}

/// Reads the length of the body, behind the name of a set.
fn read_body_len(bytes: &[u8], set: ParamSet) -> HeaderRead
    requires known { IsSet set }
    requires named { set_in bytes.now ≡ Some set }
    requires there { 6 < length bytes.now }
    ensures { result ≡ read_by (checked (body_check bytes.now ∷ []) (length bytes.now)) bytes.now }
{
    let kind = bytes[5];
    let place = NAME_PLACE + bytes[6] as usize;
    if bytes.len() < place + 8 {
        return HeaderRead::More;
    }
    let body = number_at(bytes, place);
    let needed = needed_len(&set, kind);
    if is_wrong_length(kind, body, needed) {
        return HeaderRead::Refused(FrameError::Length {
            place: place as u64,
            value: body,
            needed,
        });
    }
    HeaderRead::Whole {
        kind,
        set,
        body,
        used: 15 + u32::from(bytes[6]),
    }
}

/// The number that the 8 bytes at a place write, the least first.
pub fn number_at(bytes: &[u8], place: usize) -> u64
    requires { place + 8 ≤ length bytes.now }
    ensures { result ≡ number_in bytes.now place }
{
    let mut number = [0; 8];
    number.copy_from_slice(&bytes[place..place + 8]);
    u64::from_le_bytes(number)
}

/// How many bytes the body of a kind of frame has, by the kind's code; a database's has at least so many.
fn needed_len(set: &ParamSet, code: u8) -> u64
    requires { IsSet set.now }
    ensures { result ≡ needed_of code set.now }
{
    match FrameKind::from_code(code) {
        Some(kind) => kind.body_len(set),
        None => 0,
    }
}

/// Whether a body of this kind cannot have so many bytes.
fn is_wrong_length(kind: u8, body: u64, needed: u64) -> bool
    ensures { result ≡ wrong_length kind body needed }
{
    if kind == 6 {
        body < needed
    } else {
        body != needed
    }
}

/// Appends a header: the magic, version 1, the kind's code, the set's name behind its length, and the body's length.
pub fn push_header(
    out: &mut Vec<u8>,
    code: u8,
    set: &ParamSet,
    body_len: u64,
) -> Result<(), NoMemory>
    requires { IsSet set.now }
    ensures { IfOk result (λ _. out.new.items ≡ out.old.items ++ header code set.now body_len) }
{
    let name = set.name();
    out.extend_from_slice(&MAGIC)?;
    out.push(VERSION)?;
    out.push(code)?;
    out.push(name.len() as u8)?;
    out.extend_from_slice(name.as_bytes())?;
    out.extend_from_slice(&body_len.to_le_bytes())?;
    Ok(())
}
