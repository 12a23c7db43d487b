//! The definition of the command of `units-why` for clap.

use crate::definition::{Form, with_arguments};
use clap::Command;
use std::alloc::{AllocError, Global};

/// The names, letters and forms of the arguments.
const WHY_ARGUMENTS: &[(&str, Option<char>, Form)] = &[
    ("file", Some('f'), Form::Text),
    ("built-in", None, Form::Flag),
    ("overlay", None, Form::Texts),
    ("locale", Some('l'), Form::Text),
    ("digits", Some('d'), Form::Text),
    ("exact", None, Form::Flag),
    ("json", None, Form::Flag),
    ("lint", None, Form::Flag),
    ("captures", None, Form::Flag),
    ("unused", None, Form::Flag),
    ("version", Some('V'), Form::Flag),
    ("expression", None, Form::Operand),
    ("unit", None, Form::Operand),
];

/// Returns the command with all its arguments.
pub(crate) fn why_command<'a>(alloc: Global) -> Result<Command<'a>, AllocError> {
    with_arguments(alloc, bare_why_command(alloc), WHY_ARGUMENTS)
}

/// Returns the command without arguments. It accepts no words for help, and none of clap's own for the version.
fn bare_why_command<'a>(alloc: Global) -> Command<'a> {
    Command::new(alloc, "units-why")
        .no_binary_name(true)
        .disable_help_flag(true)
        .disable_version_flag(true)
}
