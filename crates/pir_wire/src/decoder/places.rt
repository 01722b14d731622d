ghost use Rattle.std.specs.Prelude.{◌≡◌, ◌+◌, ◌^◌, ◌<◌};
ghost use Rattle.frame_headers.specs.Refusals.{place_of};
ghost use Rattle.frame_streams.specs.Decoding.{moved as moved_by};

use frame_headers::FrameError;

/// The refusal, its place counted from so many bytes further on in the input.
pub(super) fn moved(by: u64, error: FrameError) -> FrameError
    requires { by + place_of error < 2 ^ 64 }
    ensures { result ≡ moved_by by error }
{
    let place = by + error.place();
    match error {
        FrameError::Short { .. } => FrameError::Short { place },
        FrameError::Magic { .. } => FrameError::Magic { place },
        FrameError::Version { value, .. } => FrameError::Version { place, value },
        FrameError::Kind { value, .. } => FrameError::Kind { place, value },
        FrameError::UnknownSet { .. } => FrameError::UnknownSet { place },
        FrameError::Length { value, needed, .. } => FrameError::Length {
            place,
            value,
            needed,
        },
        FrameError::Residue { value, bound, .. } => FrameError::Residue {
            place,
            value,
            bound,
        },
        FrameError::RecordLength { value, .. } => FrameError::RecordLength { place, value },
        FrameError::TooMany { value, .. } => FrameError::TooMany { place, value },
        FrameError::Ragged { value, .. } => FrameError::Ragged { place, value },
        FrameError::Extra { .. } => FrameError::Extra { place },
    }
}
