//! The request in the words of a command line of `units`, field by field.
ghost use Rattle.std.specs.Prelude.{◌≡◌, ◌≤◌, IfOk, IfSome, codes, option_map};
ghost use Rattle.clap.specs.Words.{rows_of, found_of, first_of};
ghost use Rattle.command_line.specs.Numbers.{IsOptionNumberUpTo, option_decimal_number};
ghost use Rattle.command_line.specs.Fields.{HasOptionNumberUpTo, has_command_flag, option_number, command_line_fields};

use clap::ArgMatches;
use std::alloc::{AllocError, Global};
use units_io::Text;

/// The request in the words of the command line of `units`.
#[derive(Drop)]
pub struct CommandLine {
    /// The number of significant digits, 1 to 36, if `-d` is given.
    pub digits: Option<u8>,
    /// Write numbers as integers or fractions.
    pub exact: bool,
    /// Write only the forward line of a conversion.
    pub one_line: bool,
    /// Write no tab and no signs, and separate the parts of a list by `;`.
    pub compact: bool,
    /// Strict, quiet, one-line and compact combined.
    pub terse: bool,
    /// Write no banner, messages or prompts.
    pub quiet: bool,
    /// Do not perform reciprocal conversions.
    pub strict: bool,
    /// Round the last unit of a list.
    pub round: bool,
    /// Include the two texts of a conversion in its reply.
    pub verbose: bool,
    /// Check the definitions.
    pub check: bool,
    /// The definition file.
    pub file: Option<Text>,
    /// The locale.
    pub locale: Option<Text>,
    /// The size of a trial, 1 to 20,000.
    pub trial: Option<u16>,
    /// The field to convert in each record of the input, 1 to 65,535.
    pub column: Option<u16>,
    /// Do not change the first record.
    pub header: bool,
    /// The FROM operand: the input to convert.
    pub from: Option<Text>,
    /// The TO operand: the target of the conversion.
    pub to: Option<Text>,
}

/// Returns the command line in clap's matches.
pub(crate) fn command_line_from(
    alloc: Global,
    matches: &ArgMatches<'_>,
) -> Result<CommandLine, AllocError>
    requires digits { HasOptionNumberUpTo (codes "digits") 36 (rows_of (found_of matches.now)) }
    requires trial { HasOptionNumberUpTo (codes "trial") 20000 (rows_of (found_of matches.now)) }
    requires column { HasOptionNumberUpTo (codes "column") 65535 (rows_of (found_of matches.now)) }
    ensures fields { IfOk result (λ line. line ≡ command_line_fields (rows_of (found_of matches.now))) }
    ensures digits { IfOk result (λ line. IfSome line.digits (λ n. (1 ≤ n) × (n ≤ 36))) }
    ensures trial { IfOk result (λ line. IfSome line.trial (λ n. (1 ≤ n) × (n ≤ 20000))) }
    ensures column { IfOk result (λ line. IfSome line.column (λ n. (1 ≤ n) × (n ≤ 65535))) }
{
    let file = text_of(alloc, matches, "file")?;
    let locale = text_of(alloc, matches, "locale")?;
    let from = text_of(alloc, matches, "from")?;
    let to = text_of(alloc, matches, "to")?;
    Ok(CommandLine {
        digits: digits_of(matches),
        exact: flag_of(matches, "exact"),
        one_line: flag_of(matches, "one-line"),
        compact: flag_of(matches, "compact"),
        terse: flag_of(matches, "terse"),
        quiet: flag_of(matches, "quiet"),
        strict: flag_of(matches, "strict"),
        round: flag_of(matches, "round"),
        verbose: flag_of(matches, "verbose"),
        check: flag_of(matches, "check"),
        file,
        locale,
        trial: trial_of(matches),
        column: column_of(matches),
        header: flag_of(matches, "header"),
        from,
        to,
    })
}

fn digits_of(matches: &ArgMatches<'_>) -> Option<u8>
    requires { HasOptionNumberUpTo (codes "digits") 36 (rows_of (found_of matches.now)) }
    ensures value { result ≡ option_number (codes "digits") (rows_of (found_of matches.now)) }
    ensures range { IfSome result (λ n. (1 ≤ n) × (n ≤ 36)) }
{
    match value_of(matches, "digits") {
        Some(text) => Some(number_in(text) as u8),
        None => None,
    }
}

fn trial_of(matches: &ArgMatches<'_>) -> Option<u16>
    requires { HasOptionNumberUpTo (codes "trial") 20000 (rows_of (found_of matches.now)) }
    ensures value { result ≡ option_number (codes "trial") (rows_of (found_of matches.now)) }
    ensures range { IfSome result (λ n. (1 ≤ n) × (n ≤ 20000)) }
{
    match value_of(matches, "trial") {
        Some(text) => Some(number_in(text)),
        None => None,
    }
}

fn column_of(matches: &ArgMatches<'_>) -> Option<u16>
    requires { HasOptionNumberUpTo (codes "column") 65535 (rows_of (found_of matches.now)) }
    ensures value { result ≡ option_number (codes "column") (rows_of (found_of matches.now)) }
    ensures range { IfSome result (λ n. (1 ≤ n) × (n ≤ 65535)) }
{
    match value_of(matches, "column") {
        Some(text) => Some(number_in(text)),
        None => None,
    }
}

fn number_in(text: &str) -> u16
    requires { IsOptionNumberUpTo 65535 text.now }
    ensures { result ≡ option_decimal_number text.now }
{
    text.parse::<u16>().unwrap()
}

/// Reports whether a flag is given.
pub(crate) fn flag_of(matches: &ArgMatches<'_>, name: &str) -> bool
    ensures { result ≡ has_command_flag name.now (rows_of (found_of matches.now)) }
{
    match value_of(matches, name) {
        Some(text) => text == "true",
        None => false,
    }
}

/// Returns a copy of the value of an argument, if it has one.
pub(crate) fn text_of(
    alloc: Global,
    matches: &ArgMatches<'_>,
    name: &str,
) -> Result<Option<Text>, AllocError>
    ensures { IfOk result (λ text. text ≡ first_of name.now (rows_of (found_of matches.now))) }
{
    match value_of(matches, name) {
        Some(text) => Ok(Some(Text::from_bytes(alloc, text.as_bytes())?)),
        None => Ok(None),
    }
}

/// Returns the value of an argument, if it has one.
fn value_of<'a>(matches: &ArgMatches<'a>, name: &str) -> Option<&'a str>
    ensures { option_map (λ text. text.now) result
        ≡ first_of name.now (rows_of (found_of matches.now)) }
{
    matches.get_str(name)
}
