//! The format of rows.

use crate::shadows::Shadows;
use reply::Options;

/// The format of rows, and the lines that other lines replace.
#[derive(Clone, Copy)]
pub(crate) struct RowStyle<'a> {
    pub(crate) options: &'a Options,
    pub(crate) shadows: &'a Shadows,
    pub(crate) json: bool,
}
