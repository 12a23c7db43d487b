//! The state of a name during a walk.

#[derive(Clone, Copy, Drop)]
pub(crate) enum Mark {
    // The walk has not reached it.
    Open,
    // The walk is going through its steps.
    OnPath,
    // The walk has gone through everything that it reaches, without a fault.
    Closed,
}
