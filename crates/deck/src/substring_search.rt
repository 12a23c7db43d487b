//! Substring search.

ghost use Rattle.std.specs.Prelude.{◌≡◌};
ghost use Rattle.deck.specs.SubstringKeys as spec;

use memchr::memmem::Finder;

/// Reports whether the bytes contain the text of a finder.
pub(crate) fn holds(bytes: &[u8], finder: &Finder<'_>) -> bool
    ensures { result ≡ spec.has_substring bytes.now finder.now }
{
    finder.find(bytes).is_some()
}
