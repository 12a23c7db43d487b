//! The options of a function.

ghost use Rattle.std.specs.Prelude.{◌≡◌, option_map, true};
ghost use Rattle.def_entry.specs.Options as spec;
ghost use Rattle.def_entry.specs.LineViews.{seen_option_units_and_rest, seen_options, seen_options_and_rest};

use crate::cuts::{behind_byte, cut_at};
use crate::entry::Span;
use crate::interval::interval_at;
use crate::line_head::stands_apart;
use def_lines::{trim, trim_front};

// The maximum number of options: one of each kind.
const MOST_OPTIONS: usize = 4;

// The kind of an option.
#[derive(Clone, Copy)]
pub(crate) enum Choice {
    Units,
    Domain,
    Range,
    NoError,
}

// The texts of the in unit and of the out unit, either of which may be empty.
#[derive(Clone, Copy)]
pub(crate) struct Units<'a> {
    pub in_unit: &'a [u8],
    pub out_unit: &'a [u8],
}

// The options in a line.
#[derive(Drop)]
pub(crate) struct Options<'a> {
    pub units: Option<Units<'a>>,
    pub domain: Option<Span>,
    pub range: Option<Span>,
    pub no_error: bool,
}

// Skips blanks and returns the options at the front and the text after them. Returns `None` if an option has no value
// or is repeated.
pub(crate) fn options_at(text: &[u8]) -> Option<(Options<'_>, &[u8])>
    ensures { option_map seen_options_and_rest result ≡ spec.options_at text.now }
{
    let mut options = Options::new();
    let mut rest = text;
    for _ in 0..=MOST_OPTIONS {
        rest = trim_front(rest);
        match choice_at(rest) {
            Some(choice) => rest = options.add(choice, choice.behind(rest))?,
            None => return Some((options, rest)),
        }
    }
    None
}

impl<'a> Options<'a> {
    // Creates a set without options.
    fn new() -> Options<'a>
        ensures { seen_options result ≡ spec.empty_options }
    {
        Options {
            units: None,
            domain: None,
            range: None,
            no_error: false,
        }
    }

    // Adds an option whose value is at the front of the text, and returns the text after the value. Returns `None` if
    // the value is missing or if the option is repeated.
    fn add(&mut self, choice: Choice, text: &'a [u8]) -> Option<&'a [u8]>
        ensures { option_map (λ behind. (seen_options self.new, behind.now)) result
            ≡ spec.with_option_choice choice (seen_options self.old) text.now }
    {
        match choice {
            Choice::Units if self.units.is_none() => {
                let (units, behind) = units_at(text)?;
                self.units = Some(units);
                Some(behind)
            }
            Choice::Domain if self.domain.is_none() => {
                let Some((span, behind)) = interval_at(text) else {
                    return None;
                };
                self.domain = Some(span);
                Some(behind)
            }
            Choice::Range if self.range.is_none() => {
                let Some((span, behind)) = interval_at(text) else {
                    return None;
                };
                self.range = Some(span);
                Some(behind)
            }
            Choice::NoError if !self.no_error => {
                self.no_error = true;
                Some(text)
            }
            _ => None,
        }
    }
}

impl Choice {
    // Returns the text with which the option starts.
    fn word(self) -> &'static [u8]
        ensures { result.now ≡ spec.option_choice_word self }
    {
        match self {
            Choice::Units => b"units=",
            Choice::Domain => b"domain=",
            Choice::Range => b"range=",
            Choice::NoError => b"noerror",
        }
    }

    // Reports whether the text starts with the word of the option.
    fn begins(self, text: &[u8]) -> bool
        ensures { result ≡ spec.begins_with_option self text.now }
    {
        text.starts_with(self.word())
    }

    // Returns the text after the word of the option.
    pub(crate) fn behind(self, text: &[u8]) -> &[u8]
        requires { spec.begins_with_option self text.now ≡ true }
        ensures { result.now ≡ spec.text_after_choice self text.now }
    {
        &text[self.word().len()..]
    }
}

// Returns the option with which the text starts.
fn choice_at(text: &[u8]) -> Option<Choice>
    ensures { result ≡ spec.choice_at text.now }
{
    if Choice::Units.begins(text) {
        Some(Choice::Units)
    } else if Choice::Domain.begins(text) {
        Some(Choice::Domain)
    } else if Choice::Range.begins(text) {
        Some(Choice::Range)
    } else if begins_with_no_error(text) {
        Some(Choice::NoError)
    } else {
        None
    }
}

// Reports whether the text starts with `noerror` followed by a blank or by nothing.
pub(crate) fn begins_with_no_error(text: &[u8]) -> bool
    ensures { result ≡ spec.begins_with_no_error text.now }
{
    Choice::NoError.begins(text) && stands_apart(Choice::NoError.behind(text))
}

// Returns the units in `[A;B]` and the text after it: A extends to the first `;`, and B from there to the next `]`.
fn units_at(text: &[u8]) -> Option<(Units<'_>, &[u8])>
    ensures { option_map seen_option_units_and_rest result ≡ spec.units_at text.now }
{
    let inside = behind_byte(text, b'[')?;
    let (in_unit, behind) = cut_at(inside, b';')?;
    let (out_unit, behind) = cut_at(behind, b']')?;
    let units = Units {
        in_unit: trim(in_unit),
        out_unit: trim(out_unit),
    };
    Some((units, behind))
}
