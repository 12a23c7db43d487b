//! Why a line has no answer.

use std::alloc::AllocError;

// Why a line has no answer.
#[derive(Clone, Copy)]
pub(crate) enum CallFault {
    // The line is not a call.
    BadCall,
    // Memory ran out.
    OutOfMemory,
}

impl From<AllocError> for CallFault {
    ghost from_gives = { λ _ _. Unit {0} };

    fn from(_: AllocError) -> CallFault {
        CallFault::OutOfMemory
    }
}
