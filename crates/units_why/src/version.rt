//! The version of the program.

ghost use Rattle.std.specs.Prelude.{◌≡◌};
ghost use Rattle.units_why.specs.Version as spec;

/// Returns the line with the name of the program and its version.
pub(crate) fn why_version_text() -> &'static [u8]
    ensures { result.now ≡ spec.why_version_text }
{
    b"units-why 1.1.0\n"
}
