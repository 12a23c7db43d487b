//! A question: FROM, TO and the options for the reply.

use crate::options::Options;

/// A question: FROM, TO and the options for the reply.
#[derive(Clone, Copy)]
pub struct Question<'a> {
    pub options: &'a Options,
    pub from: &'a [u8],
    pub to: &'a [u8],
}
