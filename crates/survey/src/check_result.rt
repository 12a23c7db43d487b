//! The result of checking a key whose expressions have values.

ghost use Rattle.std.specs.Prelude.{◌≡◌, position};
ghost use Rattle.std.specs.List.{list_any};
ghost use Rattle.frac128.specs.Sign as sign;
ghost use Rattle.unit_list.specs.Amounts.{is_unit_not_positive, is_unlike_unit};
ghost use Rattle.survey.specs.Checks as spec;

use quantity::Quantity;

/// The result of checking a key whose expressions have values.
#[derive(Clone, Copy, Debug, PartialEq, Eq, Drop)]
pub(crate) enum Finding {
    /// There is nothing to report.
    Sound,
    /// A part of the list does not conform to the first part.
    NonConforming,
    /// The part of the list at this index, counted from 0, is the first that is not above 0.
    NotPositive(usize),
}

/// Returns the finding for a list whose parts have these values.
pub(crate) fn parts_finding(parts: &[Quantity]) -> Finding
    ensures { result ≡ spec.parts_finding parts.now }
{
    let Some((first, others)) = parts.split_first() else {
        return Finding::Sound;
    };
    if has_unlike(first, others) {
        return Finding::NonConforming;
    }
    match first_not_positive(parts) {
        Some(place) => Finding::NotPositive(place),
        None => Finding::Sound,
    }
}

// Returns whether a part does not conform to the first.
fn has_unlike(first: &Quantity, others: &[Quantity]) -> bool
    ensures { result ≡ list_any (is_unlike_unit first.now) others.now }
{
    others.iter().any(|part| !first.conforms(part))
}

// Returns the index of the first part whose number is not above 0.
fn first_not_positive(parts: &[Quantity]) -> Option<usize>
    ensures { result ≡ position is_unit_not_positive parts.now }
{
    parts.iter().position(|part| !is_positive(part))
}

// Returns whether the number of a part is above 0.
fn is_positive(part: &Quantity) -> bool
    ensures { result ≡ sign.is_positive_fraction part.now.value }
{
    part.value().num() > 0
}
