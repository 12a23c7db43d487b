//! Finding the ends of the parts of a line.

ghost use Rattle.std.specs.Prelude.{◌≡◌, ◌==◌, ◌<◌, length, option_map, IfSome};
ghost use Rattle.std.specs.List.{position};
ghost use Rattle.std.specs.Option.{option_copied};
ghost use Rattle.def_entry.specs.Cuts as spec;
ghost use Rattle.def_entry.specs.LineViews.{seen_entry_text_pair};

// Returns the text after its first byte if that byte is `mark`, and `None` otherwise.
pub(crate) fn behind_byte(text: &[u8], mark: u8) -> Option<&[u8]>
    ensures { option_copied result ≡ spec.behind_byte mark text.now }
{
    let (first, behind) = text.split_first()?;
    if *first == mark { Some(behind) } else { None }
}

/// Returns the text before the first `mark` and the text after it, or `None` if there is no `mark`.
pub fn cut_at(text: &[u8], mark: u8) -> Option<(&[u8], &[u8])>
    ensures { option_map seen_entry_text_pair result ≡ spec.cut_at mark text.now }
{
    match place_of(text, mark) {
        Some(place) => Some((&text[..place], &text[place + 1..])),
        None => None,
    }
}

// Returns the index of the first `mark`.
fn place_of(text: &[u8], mark: u8) -> Option<usize>
    ensures is { result ≡ position (λ b. b == mark) text.now }
    ensures within { IfSome result (λ place. place < length text.now) }
{
    text.iter().position(|byte| *byte == mark)
}
