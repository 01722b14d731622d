ghost use Rattle.std.specs.Prelude.{◌≡◌};
ghost use Rattle.pir_io.specs.declared.fault.IoFault.TheVariants.{NoMemory};

use std::alloc::{AllocError, AllocFailed};

/// What an outside object answers where a call can't be done.
#[derive(Clone, Copy, Debug, PartialEq, Eq)]
pub enum IoFault {
    /// The outside failed. The object counts it.
    Failed,
    /// Memory was wanting. The call has changed nothing.
    NoMemory,
}

impl From<AllocError> for IoFault {
    ghost from_gives = { λ _ e. e ≡ NoMemory };

    fn from(_: AllocError) -> Self {
        IoFault::NoMemory
    }
}

impl<T: Drop> From<AllocFailed<T>> for IoFault {
    ghost from_gives = { λ _ e. e ≡ NoMemory };

    fn from(_: AllocFailed<T>) -> Self {
        IoFault::NoMemory
    }
}
