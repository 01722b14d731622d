ghost use Rattle.std.specs.Prelude.{◌≡◌, IfOk, IfSome, IfNone};
ghost use Rattle.spiral_sets.specs.Sets.{IsSet};
ghost use Rattle.frame_headers.specs.declared.kind.FrameKind.{FrameKind};
ghost use Rattle.spiral_frames.specs.Frames.{Message, kind_of, IsOne};
ghost use Rattle.pir_wire.specs.Bodies.{IsBodyOf, HasOneLength};

use frame_headers::FrameKind;
use no_memory::NoMemory;
use spiral_sets::ParamSet;
use std::alloc::Global;

mod header;
mod pieces;
mod query;
mod reply;
mod residues;
mod setup;
mod state;

use header::read_header;
pub use header::reading_limit;
pub(crate) use query::rows_below;
pub(crate) use setup::{lifts_count, rounds_count};

/// What the frames of one kind carry, as it is read from them.
pub trait FramedMessage: Sized {
    /// The message that it is, in the words of the definitions of frames.
    ghost message: { Self → Message };

    /// The kind of its frames.
    ghost KIND: { FrameKind };

    /// The kind of its frames.
    const KIND: FrameKind;

    /// The message of that set whose frame's body the bytes are; `None` exactly where they are the body of none.
    fn from_body(alloc: Global, set: &ParamSet, body: &[u8]) -> Result<Option<Self>, NoMemory>
        requires { IsSet set.now }
        ensures found { IfOk result (λ found. IfSome found (λ m. IsBodyOf set.now body.now (message m))) }
        ensures none { IfOk result (λ found. IfNone found ((m : Message) → kind_of m ≡ KIND → IsBodyOf set.now body.now m → ⊥)) };

    /// Its message is of that kind.
    ghost kind_is: { (m : Self) → kind_of (message m) ≡ KIND };

    /// The set says how many bytes the body of such a frame has.
    ghost one_length: { HasOneLength KIND };
}

/// The message whose frame the bytes are, with no byte more; `None` exactly where they are the frame of no message of
/// its kind.
pub fn decode<M: FramedMessage>(alloc: Global, bytes: &[u8]) -> Result<Option<M>, NoMemory>
    ensures found { IfOk result (λ found. IfSome found (λ m. IsOne M.KIND bytes.now (M.message m))) }
    ensures none { IfOk result (λ found. IfNone found ((m : Message) → IsOne M.KIND bytes.now m → ⊥)) }
{
    match read_header(alloc, M::KIND, bytes)? {
        Some((set, start)) => M::from_body(alloc, &set, &bytes[start..]),
        None => Ok(None),
    }
}
