//! The bytes that separate words.

ghost use Rattle.std.specs.Prelude.{◌≡◌};
ghost use Rattle.units_io.specs.Blanks as spec;

/// Whether the byte is a blank: a space or a tab.
pub fn is_blank(byte: u8) -> bool
    ensures { result ≡ spec.is_blank_text_byte byte }
{
    matches!(byte, b' ' | b'\t')
}
