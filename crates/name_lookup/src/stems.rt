//! The stems of a plural.

ghost use Rattle.std.specs.Prelude.{◌≡◌, ◌++◌, ◌∷◌, [], IfOk, MatchOption, codes, false, true, length};
ghost use Rattle.name_lookup.specs.Plurals.{has_plural_ending, stem_without_end};

// Returns `word` without `ending`, or `None` if it has at most `more` bytes or does not end in `ending`.
pub(crate) fn without_ending<'a>(word: &'a [u8], more: usize, ending: &[u8]) -> Option<&'a [u8]>
    ensures { MatchOption result
        (has_plural_ending more ending.now word.now ≡ false)
        (λ stem. (has_plural_ending more ending.now word.now ≡ true)
        × (stem.now ≡ stem_without_end (length ending.now) word.now)) }
{
    if word.len() <= more {
        return None;
    }
    word.strip_suffix(ending)
}
