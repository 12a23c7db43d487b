//! The definition of the command of `units` for clap.
ghost use Rattle.std.specs.Prelude.{◌≡◌, IfOk, false, map, pos};
ghost use Rattle.clap.specs.Words.{app_of, new_rule, rule_of};
ghost use Rattle.clap.specs.declared.builder.value_parser.ValueParser.TheVariants.{Signed};
ghost use Rattle.command_line.specs.Arguments.{argument_rule};
ghost use Rattle.command_line.specs.Definition.{units_command_app};
ghost use Rattle.command_line.specs.Rules.{bare_command_app, command_app_with_rules};

use clap::builder::ValueParser;
use clap::{Arg, ArgAction, Command, value_parser};
use std::alloc::{AllocError, Global};

/// How an argument is written.
#[derive(Clone, Copy)]
pub(crate) enum Form {
    /// A flag.
    Flag,
    /// An option whose value is any text.
    Text,
    /// An option that may be given several times, each time with any text as its value.
    Texts,
    /// An option whose value is a number from 1 to this one.
    Number(u16),
    /// A word without an option.
    Operand,
}

/// The names, letters and forms of the arguments. The flags and options that determine a reply are first, and then the
/// modes, the columns and the inputs of the program.
const ARGUMENTS: &[(&str, Option<char>, Form)] = &[
    ("digits", Some('d'), Form::Number(36)),
    ("exact", None, Form::Flag),
    ("one-line", Some('1'), Form::Flag),
    ("compact", None, Form::Flag),
    ("terse", Some('t'), Form::Flag),
    ("quiet", Some('q'), Form::Flag),
    ("strict", Some('s'), Form::Flag),
    ("round", Some('r'), Form::Flag),
    ("verbose", Some('v'), Form::Flag),
    ("check", Some('c'), Form::Flag),
    ("column", None, Form::Number(65535)),
    ("header", None, Form::Flag),
    ("file", Some('f'), Form::Text),
    ("locale", Some('l'), Form::Text),
    ("trial", None, Form::Number(20000)),
    ("from", None, Form::Operand),
    ("to", None, Form::Operand),
];

/// Returns the command of `units` with all its arguments.
pub(crate) fn units_command<'a>(alloc: Global) -> Result<Command<'a>, AllocError>
    ensures { IfOk result (λ command. app_of command ≡ units_command_app) }
{
    with_arguments(alloc, bare_command(alloc), ARGUMENTS)
}

/// Returns the command without arguments. It accepts no words for help or for the version.
fn bare_command<'a>(alloc: Global) -> Command<'a>
    ensures { app_of result ≡ bare_command_app }
{
    Command::new(alloc, "units")
        .no_binary_name(true)
        .disable_help_flag(true)
        .disable_version_flag(true)
}

/// Adds arguments, each with its name, its letter and its form.
pub(crate) fn with_arguments<'a>(
    alloc: Global,
    command: Command<'a>,
    arguments: &[(&'a str, Option<char>, Form)],
) -> Result<Command<'a>, AllocError>
    ensures { IfOk result (λ r. app_of r ≡ command_app_with_rules (app_of command.entry)
        (map (λ argument. argument_rule argument.0.now argument.1 argument.2) arguments.entry.now)) }
{
    let mut command = command;
    for (name, letter, form) in arguments {
        command = command.arg(argument(alloc, *name, *letter, *form))?;
    }
    Ok(command)
}

/// Returns the argument with this name, letter and form.
fn argument<'a>(alloc: Global, name: &'a str, letter: Option<char>, form: Form) -> Arg<'a>
    ensures rule { rule_of result ≡ argument_rule name.entry.now letter form }
    ensures local { result.global ≡ false }
{
    let argument = argument_with_letter(alloc, name, letter);
    match form {
        Form::Flag => argument.long(name).action(ArgAction::SetTrue),
        Form::Text => argument.long(name).action(ArgAction::Set),
        Form::Texts => argument.long(name).action(ArgAction::Append),
        Form::Number(high) => argument
            .long(name)
            .action(ArgAction::Set)
            .value_parser(number_up_to(high)),
        Form::Operand => argument.action(ArgAction::Set),
    }
}

/// Returns an argument with its letter, if it has one.
fn argument_with_letter<'a>(alloc: Global, name: &'a str, letter: Option<char>) -> Arg<'a>
    ensures rule { rule_of result ≡ record (new_rule name.entry.now) { short = letter } }
    ensures local { result.global ≡ false }
{
    let argument = Arg::new(alloc, name);
    match letter {
        Some(letter) => argument.short(letter),
        None => argument,
    }
}

/// Returns the parser of numbers from 1 to `high`.
fn number_up_to<'a>(high: u16) -> ValueParser<'a>
    ensures { result ≡ Signed (pos 1) (pos high) }
{
    value_parser!(u16).range(1..=i64::from(high))
}
