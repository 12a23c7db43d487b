//! Boxed exchanges of lines.

ghost use Rattle.std.specs.Prelude.{◌≡◌, IfOk};

use crate::line_exchange::LineExchange;
use std::alloc::{AllocError, Global};
use std::marker::Model;
use std::mem;

/// An exchange of lines in a box, so that steps of other kinds do not take up its room. Contracts see the exchange.
pub struct BoxedExchange {
    inner: Box<LineExchange>,
}

impl Drop for BoxedExchange {
    fn drop(self) {
        let BoxedExchange { inner: _ } = self;
    }
}

impl Model for BoxedExchange {
    ghost use Rattle.edit_history.specs.contracts.line_exchange.LineExchange as stored;
    ghost use Rattle.edit_history.specs.declared.line_exchange.LineExchange.{LineExchange};

    ghost Value = { LineExchange };

    ghost coded = { stored.the_row.coded };

    ghost view = { λ b. b.inner.value };
}

impl BoxedExchange {
    /// Puts an exchange in a box. The only error is running out of memory.
    pub fn new(alloc: Global, exchange: LineExchange) -> Result<BoxedExchange, AllocError>
        ensures { IfOk result (λ boxed. boxed ≡ exchange) }
    {
        match Box::new(alloc, exchange) {
            Ok(inner) => Ok(BoxedExchange { inner }),
            Err(_) => Err(AllocError),
        }
    }

    /// Replaces the exchange in the box and returns the old one. Allocates no memory.
    pub fn replace(&mut self, exchange: LineExchange) -> LineExchange
        ensures before { result ≡ self.old }
        ensures after { self.new ≡ exchange }
    {
        mem::replace(&mut *self.inner, exchange)
    }
}
