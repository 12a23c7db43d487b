//! The reply to words that `units` does not accept.
ghost use Rattle.std.specs.Prelude.{◌≡◌};
ghost use Rattle.command_line.specs.Usage as spec;

/// Returns the usage line, with its line feed.
pub fn usage_text() -> &'static [u8]
    ensures { result.now ≡ spec.usage_text }
{
    b"units: usage: units [options] [FROM [TO]]\n"
}
