//! Reading the words of the command line of `units-why`.

ghost use Rattle.std.specs.Prelude.{◌≡◌, ◌≤◌, IfOk, IfSome};
ghost use Rattle.command_line.specs.WhyDigits.{HasWhyDigits, HasWhyLineDigits};
ghost use Rattle.command_line.specs.WhyUsage as spec;

use crate::fault::WordsFault;
use crate::fields::{flag_of, text_of};
use crate::parse::{fault_from, texts_of};
use crate::why_command::why_command;
use crate::why_request::{Findings, Inquiry, Overlay, WhyCommandLine, WhyRequest};
use clap::ArgMatches;
use std::alloc::Global;
use units_io::Text;

/// Returns the usage message, which answers a command line that is not a request.
pub fn why_usage_text() -> &'static [u8]
    ensures { result.now ≡ spec.why_usage_text }
{
    b"units-why: usage: units-why [options] EXPRESSION [UNIT], or units-why --lint [options]\n"
}

/// Parses the words after the name of the program. The error is `Usage` if clap rejects them or a word is not UTF-8.
/// Unless `--version` is given, it is also `Usage` if both a file and `--built-in` are given, the digits are not a number
/// from 1 to 36, both digits and `--exact` are given, an overlay is not NAME=PATH, not exactly one of an expression and
/// `--lint` is given, or `--captures` or `--unused` is given without `--lint`.
pub fn read_why_words(alloc: Global, words: &[Text]) -> Result<WhyCommandLine, WordsFault>
    ensures { IfOk result HasWhyLineDigits }
{
    let texts = texts_of(alloc, words)?;
    let matches = matches_of(alloc, texts.as_slice())?;
    if flag_of(&matches, "version") {
        return Ok(WhyCommandLine::Version);
    }
    Ok(WhyCommandLine::Request(request_of(alloc, &matches)?))
}

// Returns the matches of the program's command in these words.
fn matches_of<'a>(alloc: Global, words: &'a [&'a str]) -> Result<ArgMatches<'a>, WordsFault> {
    match why_command(alloc)?.try_get_matches_from(words) {
        Ok(matches) => Ok(matches),
        Err(error) => Err(fault_from(&error)),
    }
}

// Returns the request that the matches describe.
fn request_of(alloc: Global, matches: &ArgMatches<'_>) -> Result<WhyRequest, WordsFault>
    ensures { IfOk result HasWhyDigits }
{
    let file = file_of(alloc, matches)?;
    let overlays = overlays_of(alloc, matches)?;
    let locale = text_of(alloc, matches, "locale")?;
    let inquiry = inquiry_of(alloc, matches)?;
    let digits = read_why_digits(matches)?;
    Ok(WhyRequest {
        file,
        overlays,
        locale,
        digits,
        exact: flag_of(matches, "exact"),
        json: flag_of(matches, "json"),
        inquiry,
    })
}

// Returns the definition file, or `None` for the built-in definitions.
fn file_of(alloc: Global, matches: &ArgMatches<'_>) -> Result<Option<Text>, WordsFault> {
    match text_of(alloc, matches, "file")? {
        Some(_) if flag_of(matches, "built-in") => Err(WordsFault::Usage),
        file => Ok(file),
    }
}

// Returns the overlays in their order.
fn overlays_of(alloc: Global, matches: &ArgMatches<'_>) -> Result<Vec<Overlay>, WordsFault> {
    let mut overlays = Vec::new(alloc);
    if let Some(values) = matches.get_strs("overlay") {
        for value in values {
            overlays.push(overlay_of(alloc, *value)?)?;
        }
    }
    Ok(overlays)
}

// Returns the overlay NAME=PATH. The last `=` separates the two, so that any name can be written.
fn overlay_of(alloc: Global, value: &str) -> Result<Overlay, WordsFault> {
    match value.rsplit_once('=') {
        Some((name, path)) if !name.is_empty() && !path.is_empty() => Ok(Overlay {
            name: Text::from_bytes(alloc, name.as_bytes())?,
            path: Text::from_bytes(alloc, path.as_bytes())?,
        }),
        _ => Err(WordsFault::Usage),
    }
}

// Returns the query: either for an expression or for all definitions.
fn inquiry_of(alloc: Global, matches: &ArgMatches<'_>) -> Result<Inquiry, WordsFault> {
    let expression = text_of(alloc, matches, "expression")?;
    let unit = text_of(alloc, matches, "unit")?;
    let findings = Findings {
        captures: flag_of(matches, "captures"),
        unused: flag_of(matches, "unused"),
    };
    let asks_more = findings.captures || findings.unused;
    match (expression, flag_of(matches, "lint")) {
        (Some(expression), false) if !asks_more => Ok(Inquiry::Value(expression, unit)),
        (None, true) => Ok(Inquiry::Lint(findings)),
        _ => Err(WordsFault::Usage),
    }
}

// Returns the number of digits, if it is given. The error is `Usage` if it is not from 1 to 36, or `--exact` is given
// too.
fn read_why_digits(matches: &ArgMatches<'_>) -> Result<Option<u8>, WordsFault>
    ensures { IfOk result (λ digits. IfSome digits (λ n. (1 ≤ n) × (n ≤ 36))) }
{
    let Some(text) = matches.get_str("digits") else {
        return Ok(None);
    };
    match text.parse::<u8>() {
        Ok(digits) if !flag_of(matches, "exact") => digits_within(digits),
        _ => Err(WordsFault::Usage),
    }
}

// Returns `digits` if it is from 1 to 36, and otherwise the error `Usage`.
fn digits_within(digits: u8) -> Result<Option<u8>, WordsFault>
    ensures { IfOk result (λ digits. IfSome digits (λ n. (1 ≤ n) × (n ≤ 36))) }
{
    if 1 <= digits && digits <= 36 {
        Ok(Some(digits))
    } else {
        Err(WordsFault::Usage)
    }
}
