//! The streams and the files of a run.

use crate::output::Output;
use crate::overlaid_files::OverlaidFiles;
use units_io::{Files, Sink};

/// The output, the error output and the files of a run.
#[derive(Drop)]
pub(crate) struct Ports<O: Sink, E: Sink, F: Files> {
    pub(crate) out: Output<O>,
    pub(crate) err: Output<E>,
    pub(crate) files: OverlaidFiles<F>,
}
