//! Texts that are written in pieces.

ghost use Rattle.reply.specs.Options.{AreReplyOptionsPrintable};

use crate::output::{Output, OutputFault};
use crate::values::style_of;
use def_entry::{Key, put_key};
use frac128::Frac;
use quantity::Quantity;
use reply::Options;
use std::alloc::{AllocError, Global};
use units_io::{Sink, Text};

/// A text that is written in pieces. A piece that memory is too short for is left out, and the end reports it.
pub(crate) struct Writer {
    alloc: Global,
    text: Vec<u8>,
    // Whether a piece was left out.
    is_incomplete: bool,
}

// Written by hand, so that code that drops a writer need not prove anything about its contents.
impl Drop for Writer {
    fn drop(self) {
        let Writer {
            alloc: _,
            text: _,
            is_incomplete: _,
        } = self;
    }
}

impl Writer {
    /// Returns an empty text.
    pub(crate) fn new(alloc: Global) -> Writer {
        Writer {
            alloc,
            text: Vec::new(alloc),
            is_incomplete: false,
        }
    }

    /// Returns an empty text, for a part that is written separately.
    pub(crate) fn part(&self) -> Writer {
        Writer::new(self.alloc)
    }

    /// Appends a text.
    pub(crate) fn put(&mut self, piece: &[u8]) {
        let written = self.text.extend_from_slice(piece);
        self.note(written.is_ok());
    }

    /// Appends a byte.
    pub(crate) fn put_byte(&mut self, byte: u8) {
        let written = self.text.push(byte);
        self.note(written.is_ok());
    }

    /// Appends the text of a key.
    pub(crate) fn put_key(&mut self, key: &Key) {
        let written = put_key(&mut self.text, key);
        self.note(written.is_ok());
    }

    /// Appends a value in the format that the options select.
    pub(crate) fn put_value(&mut self, options: &Options, value: &Quantity)
        requires { AreReplyOptionsPrintable options.now }
    {
        let style = style_of(options, &value.value());
        let written = value.put(self.alloc, &mut self.text, style);
        self.note(written.is_ok());
    }

    /// Appends a number without a unit in the format that the options select.
    pub(crate) fn put_fraction(&mut self, options: &Options, number: Frac)
        requires { AreReplyOptionsPrintable options.now }
    {
        let number = Quantity::number(self.alloc, number);
        self.put_value(options, &number);
    }

    fn note(&mut self, is_written: bool) {
        if !is_written {
            self.leave_out();
        }
    }

    /// Records that memory was too short for a piece.
    pub(crate) fn leave_out(&mut self) {
        self.is_incomplete = true;
    }

    /// Returns whether nothing is written.
    pub(crate) fn is_empty(&self) -> bool {
        self.text.is_empty()
    }

    /// Writes the text to `output` and clears it, if it is at least a block.
    pub(crate) fn send_block<O: Sink>(
        &mut self,
        output: &mut Output<O>,
    ) -> Result<(), OutputFault> {
        if self.is_incomplete {
            return Err(OutputFault::OutOfMemory);
        }
        output.put_block(self.alloc, &mut self.text)
    }

    /// Writes the text to `output`.
    pub(crate) fn send<O: Sink>(&self, output: &mut Output<O>) -> Result<(), OutputFault> {
        if self.is_incomplete {
            return Err(OutputFault::OutOfMemory);
        }
        output.put(self.alloc, self.text.as_slice())
    }

    /// Returns the text, if no piece was left out.
    pub(crate) fn into_text(self) -> Result<Text, AllocError> {
        if self.is_incomplete {
            return Err(AllocError);
        }
        let Writer {
            alloc: _,
            text,
            is_incomplete: _,
        } = self;
        Ok(Text::from(text))
    }
}
