//! The data that are stored of a function besides its entry.

/// The places at which the words of the trees of a function begin among all its words. The words of its in unit come
/// first.
#[derive(Clone, Copy, Drop)]
pub(crate) struct PartStarts {
    pub(crate) out_unit: u32,
    pub(crate) forward: u32,
    pub(crate) inverse: u32,
}

/// The rank of a name, or 0 if it is not a function, and the places at which the words of its trees begin.
#[derive(Clone, Copy, Drop)]
pub(crate) struct Callee {
    pub(crate) rank: u32,
    pub(crate) starts: PartStarts,
}
