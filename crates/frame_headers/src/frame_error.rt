ghost use Rattle.std.specs.Prelude.{◌≡◌};
ghost use Rattle.frame_headers.specs.Refusals.{code_of, place_of};

/// Why an input is no frame, with the place of the byte that shows it, counted from the input's first byte.
/// `value` is the number whose first byte stands at the place.
#[derive(Clone, Copy, Debug, PartialEq, Eq)]
pub enum FrameError {
    /// The input ends inside a frame, or where one is still expected; the place is the input's length.
    Short { place: u64 },
    /// A byte of the magic number differs.
    Magic { place: u64 },
    /// The version isn't known.
    Version { place: u64, value: u8 },
    /// The kind isn't one that this reader accepts.
    Kind { place: u64, value: u8 },
    /// The name is that of no set; the place is that of its first byte.
    UnknownSet { place: u64 },
    /// The body length isn't `needed`; for a database it is below `needed`, which is 16.
    Length { place: u64, value: u64, needed: u64 },
    /// A residue is at least q, an index at least the number of records, or a secret byte above 2: `bound` is
    /// the least number that is refused.
    Residue { place: u64, value: u64, bound: u64 },
    /// The record length is 0 or over the capacity.
    RecordLength { place: u64, value: u64 },
    /// The count is over the number of records.
    TooMany { place: u64, value: u64 },
    /// A database's body isn't 16 bytes and count times length.
    Ragged { place: u64, value: u64 },
    /// A byte follows the one frame that is expected.
    Extra { place: u64 },
}

impl FrameError {
    /// The code that stands for it in a Refuse frame and in printed lines.
    pub fn code(&self) -> u8
        ensures { result ≡ code_of self.now }
    {
        match self {
            FrameError::Short { .. } => 1,
            FrameError::Magic { .. } => 2,
            FrameError::Version { .. } => 3,
            FrameError::Kind { .. } => 4,
            FrameError::UnknownSet { .. } => 5,
            FrameError::Length { .. } => 6,
            FrameError::Residue { .. } => 7,
            FrameError::RecordLength { .. } => 8,
            FrameError::TooMany { .. } => 9,
            FrameError::Ragged { .. } => 10,
            FrameError::Extra { .. } => 14,
        }
    }

    /// The place of the byte that shows it.
    pub fn place(&self) -> u64
        ensures { result ≡ place_of self.now }
    {
        match self {
            FrameError::Short { place }
            | FrameError::Magic { place }
            | FrameError::Version { place, .. }
            | FrameError::Kind { place, .. }
            | FrameError::UnknownSet { place }
            | FrameError::Length { place, .. }
            | FrameError::Residue { place, .. }
            | FrameError::RecordLength { place, .. }
            | FrameError::TooMany { place, .. }
            | FrameError::Ragged { place, .. }
            | FrameError::Extra { place } => *place,
        }
    }
}
