//! Plural endings.

ghost use Rattle.std.specs.Prelude.{◌≡◌, MatchOption, false, true, length};
ghost use Rattle.name_lookup.specs.Plurals.{has_plural_ending, stem_without_end};

/// A plural ending, and the length that a word with it must exceed.
#[derive(Clone, Copy)]
pub(crate) struct PluralEnding<'a> {
    pub(crate) letters: &'a [u8],
    pub(crate) more: usize,
}

/// Returns the word without an ending, or `None` if it does not end so or is too short.
pub(crate) fn without_ending<'a>(word: &'a [u8], ending: &PluralEnding<'_>) -> Option<&'a [u8]>
    ensures { MatchOption result
        (has_plural_ending ending.now.more ending.now.letters.now word.now ≡ false)
        (λ stem. (has_plural_ending ending.now.more ending.now.letters.now word.now ≡ true)
        × (stem.now ≡ stem_without_end (length ending.now.letters.now) word.now)) }
{
    if word.len() <= ending.more {
        return None;
    }
    word.strip_suffix(ending.letters)
}
