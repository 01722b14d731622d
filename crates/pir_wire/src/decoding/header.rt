ghost use Rattle.std.specs.Prelude.{◌≡◌, ◌^◌, ◌<◌, ◌≤◌, IfOk, IfSome, IfNone};
ghost use Rattle.spiral_sets.specs.declared.param_set.ParamSet.{ParamSet as ASet};
ghost use Rattle.spiral_sets.specs.Sets.{IsSet};
ghost use Rattle.frame_streams.specs.Heads.{header_of};
ghost use Rattle.pir_wire.specs.Headers.{frame_len_of, BeginsWith, HasOtherFront};

use frame_headers::{FrameKind, push_header};
use no_memory::NoMemory;
use spiral_sets::{ParamSet, set_at};
use std::alloc::Global;

/// How many parameter sets there are.
const SETS_COUNT: usize = 10;

/// The header of a frame of that kind and set.
fn header_bytes(alloc: Global, kind: FrameKind, set: &ParamSet) -> Result<Vec<u8>, NoMemory>
    requires { IsSet set.now }
    ensures { IfOk result (λ bytes. bytes.items ≡ header_of kind set.now) }
{
    let mut bytes = Vec::new(alloc);
    push_header(&mut bytes, kind.code(), set, kind.body_len(set))?;
    Ok(bytes)
}

/// Where the body starts in bytes that begin with the header of that set; `None` exactly where they don't.
fn body_start(
    alloc: Global,
    kind: FrameKind,
    set: &ParamSet,
    bytes: &[u8],
) -> Result<Option<usize>, NoMemory>
    requires { IsSet set.now }
    ensures found { IfOk result (λ found. IfSome found (λ start. BeginsWith kind bytes.now set.now start)) }
    ensures none { IfOk result (λ found. IfNone found (HasOtherFront kind bytes.now set.now)) }
{
    let header = header_bytes(alloc, kind, set)?;
    if !bytes.starts_with(&header) {
        return Ok(None);
    }
    Ok(Some(header.len()))
}

/// The set whose header the bytes begin with, and where the body starts; `None` exactly where they begin with
/// the header of no set.
pub(super) fn read_header(
    alloc: Global,
    kind: FrameKind,
    bytes: &[u8],
) -> Result<Option<(ParamSet, usize)>, NoMemory>
    ensures found { IfOk result (λ found. IfSome found (λ front. BeginsWith kind bytes.now front.0 front.1)) }
    ensures none { IfOk result (λ found. IfNone found ((set : ASet) → IsSet set → HasOtherFront kind bytes.now set)) }
{
    for i in 0..SETS_COUNT {
        let set = set_at(i);
        if let Some(start) = body_start(alloc, kind, &set, bytes)? {
            return Ok(Some((set, start)));
        }
    }
    Ok(None)
}

/// How many bytes a frame of that kind and set has; a Database has at least so many.
fn frame_len(kind: FrameKind, set: &ParamSet) -> usize
    requires { IsSet set.now }
    ensures value { result ≡ frame_len_of kind set.now }
    ensures most { result < 2 ^ 25 }
{
    15 + set.name().len() + kind.body_len(set) as usize
}

/// One byte more than the longest frame of that kind has, among those of all sets.
pub fn reading_limit(kind: FrameKind) -> usize
    ensures { (set : ASet) → IsSet set → frame_len_of kind set < result }
{
    let mut longest: usize = 0;
    for i in 0..SETS_COUNT {
        longest = longest.max(frame_len(kind, &set_at(i)));
    }
    longest + 1
}
