use frame_headers::FrameError;

/// Why an input gave no message.
#[derive(Clone, Copy, Debug, PartialEq, Eq)]
pub enum InputError {
    /// The file couldn't be read.
    File,
    /// It isn't the one frame that is expected, and is refused for this reason.
    Frame(FrameError),
    /// Memory was wanting.
    NoMemory,
}
