//! Reading the words of the command line of `units`.
ghost use Rattle.std.specs.Prelude.{◌≡◌, ◌≤◌, IfOk, IfSome, true, false};
ghost use Rattle.command_line.specs.AcceptedWords as spec;
ghost use Rattle.command_line.specs.Fields.{command_line_of};

use crate::fault::WordsFault;
use crate::fields::{CommandLine, command_line_from};
use crate::parse::{parse, texts_of};
use def_lines::line_content;
use std::alloc::Global;
use units_io::Text;

/// Reads the words after the program's name.
///
/// The error is `Usage` if the words are not a command line of `units`, and `OutOfMemory` if the memory ran out
/// before this was known.
pub fn read_words(alloc: Global, words: &[Text]) -> Result<CommandLine, WordsFault>
    ensures taken { IfOk result (λ _. spec.are_command_words_accepted words.now ≡ true) }
    ensures read { IfOk result (λ line. line ≡ command_line_of words.now) }
    ensures usage { result ≡ Err WordsFault.Usage → spec.are_command_words_accepted words.now ≡ false }
    ensures digits { IfOk result (λ line. IfSome line.digits (λ n. (1 ≤ n) × (n ≤ 36))) }
    ensures trial { IfOk result (λ line. IfSome line.trial (λ n. (1 ≤ n) × (n ≤ 20000))) }
    ensures column { IfOk result (λ line. IfSome line.column (λ n. (1 ≤ n) × (n ≤ 65535))) }
    ensures work { IfOk result (λ line. spec.command_work_count line ≤ 1) }
    ensures sides { IfOk result (λ line. IfSome line.column (λ _. spec.is_conversion_command line ≡ true)) }
{
    let line = parsed_line(alloc, words)?;
    if !arguments_fit(&line) {
        return Err(WordsFault::Usage);
    }
    Ok(line)
}

/// Returns the words as clap reads them, before the checks that involve several arguments.
fn parsed_line(alloc: Global, words: &[Text]) -> Result<CommandLine, WordsFault>
    ensures parsed { IfOk result (λ _. spec.are_command_words_parsed words.now ≡ true) }
    ensures read { IfOk result (λ line. line ≡ command_line_of words.now) }
    ensures usage { result ≡ Err WordsFault.Usage → spec.are_command_words_parsed words.now ≡ false }
    ensures digits { IfOk result (λ line. IfSome line.digits (λ n. (1 ≤ n) × (n ≤ 36))) }
    ensures trial { IfOk result (λ line. IfSome line.trial (λ n. (1 ≤ n) × (n ≤ 20000))) }
    ensures column { IfOk result (λ line. IfSome line.column (λ n. (1 ≤ n) × (n ≤ 65535))) }
{
    let texts = texts_of(alloc, words)?;
    let matches = parse(alloc, texts.as_slice())?;
    Ok(command_line_from(alloc, &matches)?)
}

/// Reports whether at most one of FROM, `--check` and `--trial` is given, and the options for columns are given only
/// where they are allowed.
fn arguments_fit(line: &CommandLine) -> bool
    ensures { result ≡ spec.command_options_fit line.now }
{
    count_of_work(line) <= 1 && columns_fit(line)
}

/// Returns how many of FROM, `--check` and `--trial` are given.
fn count_of_work(line: &CommandLine) -> u8
    ensures { result ≡ spec.command_work_count line.now }
{
    one_if(line.from.is_some()) + one_if(line.check) + one_if(line.trial.is_some())
}

fn one_if(stands: bool) -> u8
    ensures { result ≡ spec.one_if_command_argument stands }
{
    if stands { 1 } else { 0 }
}

/// Reports whether `--column` is given only with a conversion, and `--header` only with `--column`.
fn columns_fit(line: &CommandLine) -> bool
    ensures { result ≡ spec.column_options_fit line.now }
{
    (line.column.is_none() || is_conversion(line)) && (!line.header || line.column.is_some())
}

/// Reports whether FROM is given, with a TO that is neither blank nor `?`.
fn is_conversion(line: &CommandLine) -> bool
    ensures { result ≡ spec.is_conversion_command line.now }
{
    match &line.to {
        Some(to) => line.from.is_some() && is_target(to.as_bytes()),
        None => false,
    }
}

/// Reports whether the TO word is neither blank nor `?`.
fn is_target(to: &[u8]) -> bool
    ensures { result ≡ spec.is_target_word to.now }
{
    let text = line_content(to);
    !(text.is_empty() || text == b"?".as_slice())
}
