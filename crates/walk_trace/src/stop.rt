use case_file::refusal::Refusal;
use std::alloc::{AllocError, AllocFailed};

/// Why a trace stops before its end.
#[derive(Clone, Copy, Drop)]
pub(crate) enum Stop {
    /// There is no memory for the text.
    Memory,
    /// The case is refused.
    Refused(Refusal),
}

// By hand: that of `AllocFailed<T>` is for every `T`, which no derive writes, and the others are no longer than it.
impl From<Refusal> for Stop {
    fn from(refusal: Refusal) -> Stop {
        Stop::Refused(refusal)
    }
}

impl From<AllocError> for Stop {
    fn from(_error: AllocError) -> Stop {
        Stop::Memory
    }
}

impl<T: Drop> From<AllocFailed<T>> for Stop {
    fn from(_refused: AllocFailed<T>) -> Stop {
        Stop::Memory
    }
}
