//! The form in which a reply is written.

ghost use Rattle.std.specs.Prelude.{◌≡◌};
ghost use Rattle.digits_print.specs.Styles.{IsPrintStyle};
ghost use Rattle.reply.specs.Options as spec;

use crate::options::Options;
use digits_print::Style;

/// The layout of a line.
#[derive(Clone, Copy, Debug, PartialEq, Eq)]
pub(crate) enum Layout {
    /// A tab and signs.
    Plain,
    /// No tab and no signs.
    Compact,
    /// A tab and the texts of FROM and TO.
    Verbose,
}

/// The form in which a reply is written.
#[derive(Clone, Copy)]
pub(crate) struct Form {
    pub(crate) layout: Layout,
    pub(crate) style: Style,
    /// Whether the second line of a linear conversion is omitted.
    pub(crate) one_line: bool,
}

impl Form {
    /// Returns the form that the options select.
    pub(crate) fn of(options: &Options) -> Form
        requires { spec.AreReplyOptionsPrintable options.now }
        ensures is { result ≡ spec.reply_form options.now }
        ensures style { IsPrintStyle result.style }
    {
        let layout = if options.compact {
            Layout::Compact
        } else if options.verbose {
            Layout::Verbose
        } else {
            Layout::Plain
        };
        let style = if options.exact {
            Style::Exact
        } else {
            Style::Digits(options.digits)
        };
        Form {
            layout,
            style,
            one_line: options.one_line,
        }
    }
}
