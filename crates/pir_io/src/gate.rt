/// Called by each worker at the start of its piece. No contract rests on what it does.
pub trait Gate: Sync {
    /// Returns when the worker may go on with this piece.
    fn pass(&self, piece: u32);
}

/// Lets every worker pass.
#[derive(Clone, Copy, Debug)]
pub struct OpenGate;

impl Gate for OpenGate {
    fn pass(&self, _piece: u32) {}
}
