//! The options for replies, from the command line.
ghost use Rattle.std.specs.Prelude.{◌≡◌};
ghost use Rattle.reply.specs.Options.{AreReplyOptionsPrintable};
ghost use Rattle.units_run.specs.Options as spec;

use command_line::CommandLine;
use reply::Options;

/// Returns the options of a command line.
#[tactic(auto, unfolding(crate::specs::Options::run_options))]
pub(crate) fn options_of(line: &CommandLine) -> Options
    requires { spec.HasValidRunDigits line.now }
    ensures is { result ≡ spec.run_options line.now }
    ensures printable { AreReplyOptionsPrintable result }
{
    let compact = line.compact || line.terse;
    Options {
        digits: line.digits.unwrap_or(8),
        exact: line.exact,
        strict: line.strict || line.terse,
        one_line: line.one_line || line.terse,
        compact,
        quiet: line.quiet || line.terse,
        round: line.round,
        verbose: line.verbose && !compact,
    }
}
