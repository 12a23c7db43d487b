//! The options of replies, and their syntax.

ghost use Rattle.std.specs.Prelude.{◌≤◌, IfSome};
ghost use Rattle.reply.specs.Options.{AreReplyOptionsPrintable};

use crate::lines::meaning_of;
use reply::Options;
use std::str;

// A flag of replies.
#[derive(Clone, Copy)]
enum Flag {
    Exact,
    Strict,
    OneLine,
    Compact,
    Quiet,
    Round,
    Verbose,
}

// The words of flags.
const FLAGS: &[(&[u8], Flag)] = &[
    (b"exact", Flag::Exact),
    (b"strict", Flag::Strict),
    (b"one-line", Flag::OneLine),
    (b"compact", Flag::Compact),
    (b"quiet", Flag::Quiet),
    (b"round", Flag::Round),
    (b"verbose", Flag::Verbose),
];

// Returns the default options: eight digits and no flag.
pub(crate) fn default_options() -> Options
    ensures { AreReplyOptionsPrintable result }
{
    Options {
        digits: 8,
        exact: false,
        strict: false,
        one_line: false,
        compact: false,
        quiet: false,
        round: false,
        verbose: false,
    }
}

// Reads options as words separated by spaces: flags, and a number of digits, which is eight if it is not given.
pub(crate) fn read_options(words: &[u8]) -> Option<Options>
    ensures { IfSome result AreReplyOptionsPrintable }
{
    let mut options = default_options();
    for word in words.split(|byte| *byte == b' ') {
        options = with_option(options, word)?;
    }
    Some(options)
}

// Adds the option that a word names.
fn with_option(options: Options, word: &[u8]) -> Option<Options>
    requires { AreReplyOptionsPrintable options }
    ensures { IfSome result AreReplyOptionsPrintable }
{
    if word.is_empty() {
        return Some(options);
    }
    match meaning_of(FLAGS, word) {
        Some(flag) => Some(with_flag(options, flag)),
        None => with_digits(options, word),
    }
}

// Sets a flag.
fn with_flag(mut options: Options, flag: Flag) -> Options
    requires { AreReplyOptionsPrintable options }
    ensures { AreReplyOptionsPrintable result }
{
    match flag {
        Flag::Exact => options.exact = true,
        Flag::Strict => options.strict = true,
        Flag::OneLine => options.one_line = true,
        Flag::Compact => options.compact = true,
        Flag::Quiet => options.quiet = true,
        Flag::Round => options.round = true,
        Flag::Verbose => options.verbose = true,
    }
    options
}

// Sets the number of digits.
fn with_digits(options: Options, word: &[u8]) -> Option<Options>
    requires { AreReplyOptionsPrintable options }
    ensures { IfSome result AreReplyOptionsPrintable }
{
    let digits = read_digits(word)?;
    Some(Options { digits, ..options })
}

// Reads a number of digits from 1 to 36.
fn read_digits(word: &[u8]) -> Option<u8>
    ensures least { IfSome result (λ digits. 1 ≤ digits) }
    ensures most { IfSome result (λ digits. digits ≤ 36) }
{
    let digits: u8 = str::from_utf8(word).ok()?.parse().ok()?;
    if 1 <= digits && digits <= 36 {
        Some(digits)
    } else {
        None
    }
}
