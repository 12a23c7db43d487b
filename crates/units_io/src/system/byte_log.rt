//! A list of bytes that only clauses read. It takes no memory, and its methods do nothing at run time.
ghost use Rattle.std.specs.Prelude.{◌≡◌, ℕ, List, [], ◌++◌};
ghost use Rattle.std.specs.Borrow.{ftrue};

use std::marker::{Model, PhantomData};

/// The bytes noted so far, by the calls of `append`. No memory holds them.
#[derive(Drop)]
pub struct ByteLog {
    marker: PhantomData<u8>,
    pub ghost bytes: { List ℕ },
}

impl Model for ByteLog {
    ghost also_owns = { λ _. ftrue };
}

impl ByteLog {
    /// Creates a log of no bytes.
    pub(crate) fn new() -> ByteLog
        ensures { result.bytes ≡ [] }
    {
        ByteLog {
            marker: PhantomData,
        }
    }

    /// Notes that these bytes follow.
    pub(crate) fn append(&mut self, _bytes: &[u8])
        ensures { self.new.bytes ≡ self.old.bytes ++ _bytes.now }
    {}
}
