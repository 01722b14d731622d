ghost use Rattle.std.specs.Prelude.{◌≡◌, IfOk};
ghost use Rattle.spiral_sets.specs.Sets.{IsSet};
ghost use Rattle.frame_headers.specs.Kinds.{code_of_kind, body_len_of};
ghost use Rattle.frame_headers.specs.Headers.{header};

use frame_headers::{FrameKind, push_header};
use no_memory::NoMemory;
use spiral_sets::ParamSet;
use std::alloc::Global;

/// The header of a frame of that kind and set, in memory that the whole frame fits.
pub(crate) fn begin_frame(
    alloc: Global,
    kind: FrameKind,
    set: &ParamSet,
) -> Result<Vec<u8>, NoMemory>
    requires { IsSet set.now }
    ensures { IfOk result (λ out. out.items ≡ header (code_of_kind kind) set.now (body_len_of kind set.now)) }
{
    let body_len = kind.body_len(set);
    let mut out = Vec::with_capacity(alloc, 15 + set.name().len() + body_len as usize)?;
    push_header(&mut out, kind.code(), set, body_len)?;
    Ok(out)
}
