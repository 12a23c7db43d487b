//! The options that C passes in.

ghost use Rattle.std.specs.Prelude.{◌≡◌, IfSome};
ghost use Rattle.reply.specs.Options.{AreReplyOptionsPrintable};
ghost use Rattle.units_c.specs.Options as spec;

use reply::Options;

/// How replies are computed and written. A flag is set by any byte but 0.
#[repr(C)]
#[derive(Clone, Copy)]
pub struct UnitsOptions {
    /// The significant digits of a number, from 1 to 36; 0 means 8.
    pub digits: u8,
    /// Write numbers as `n` or `n|d`; the digits have no effect.
    pub exact: u8,
    /// Make no reciprocal conversion.
    pub strict: u8,
    /// Write only the first line of a linear conversion.
    pub one_line: u8,
    /// Write no tab and no signs, and join lists by `;`. Turns `verbose` off.
    pub compact: u8,
    /// Round the last count of a list.
    pub round: u8,
    /// Write the texts of FROM and TO in the reply.
    pub verbose: u8,
}

impl UnitsOptions {
    /// Returns the options of replies, or `None` if there are more than 36 digits.
    pub(crate) fn read(&self) -> Option<Options>
        ensures is { result ≡ spec.c_reply_options self.now }
        ensures printable { IfSome result AreReplyOptionsPrintable }
    {
        if self.digits > 36 {
            return None;
        }
        Some(Options {
            digits: if self.digits == 0 { 8 } else { self.digits },
            exact: self.exact != 0,
            strict: self.strict != 0,
            one_line: self.one_line != 0,
            compact: self.compact != 0,
            quiet: true,
            round: self.round != 0,
            verbose: self.verbose != 0,
        })
    }
}
