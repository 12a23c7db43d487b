//! The parts of a list.

ghost use Rattle.std.specs.Prelude.{◌≡◌, ◌∷◌, ◌<◌, length, IfSome};
ghost use Rattle.std.specs.Option.{option_copied};
ghost use Rattle.reply.specs.Targets.{conversion_target_parts, conversion_target_parts_after_cut};

use def_entry::cut_at;
use def_lines::trim;

/// Returns the first part of the text of a list, trimmed, and the text after its `;`, if there is one.
pub(crate) fn cut_part(text: &[u8]) -> (&[u8], Option<&[u8]>)
    ensures parts { conversion_target_parts text.now ≡ result.0.now
        ∷ conversion_target_parts_after_cut (option_copied result.1) }
    ensures shorter { IfSome (option_copied result.1) (λ behind. length behind < length text.now) }
{
    match cut_at(text, b';') {
        Some((part, behind)) => (trim(part), Some(behind)),
        None => (trim(text), None),
    }
}
