//! Parsing the words of `units` with clap.
ghost use Rattle.std.specs.Prelude.{◌≡◌, ◌≢◌, [], IfOk, MatchResult, codes, map, true, false};
ghost use Rattle.std.specs.List.{list_all};
ghost use Rattle.std.specs.Str.{is_utf8};
ghost use Rattle.clap.specs.Words.{rows_of, fault_of, found_of, kind_of, matches_of};
ghost use Rattle.command_line.specs.Definition.{units_command_app};
ghost use Rattle.command_line.specs.Fields.{HasOptionNumberUpTo};

use crate::definition::units_command;
use crate::fault::WordsFault;
use clap::error::ErrorKind;
use clap::{ArgMatches, Error};
use std::alloc::Global;
use units_io::Text;

/// Returns the words as texts. The error is `Usage` if one of them is not UTF-8.
pub(crate) fn texts_of<'w>(alloc: Global, words: &'w [Text]) -> Result<Vec<&'w str>, WordsFault>
    ensures utf8 { IfOk result (λ _. list_all is_utf8 words.entry.now ≡ true) }
    ensures texts { IfOk result (λ texts. map (λ text. text.now) texts.items ≡ words.entry.now) }
    ensures usage { result ≡ Err WordsFault.Usage → list_all is_utf8 words.entry.now ≡ false }
{
    let mut texts = Vec::new(alloc);
    for word in words {
        match str::from_utf8(word.as_bytes()) {
            Ok(text) => texts.push(text)?,
            Err(_) => return Err(WordsFault::Usage),
        }
    }
    Ok(texts)
}

/// Returns the matches of the command of `units` in these words.
pub(crate) fn parse<'a>(alloc: Global, words: &'a [&'a str]) -> Result<ArgMatches<'a>, WordsFault>
    ensures exact { let texts = map (λ word. word.now) words.entry.now in
        MatchResult result
        (λ matches. (fault_of units_command_app texts ≡ [])
        × (rows_of (found_of matches) ≡ matches_of units_command_app texts))
        (λ fault. fault ≡ WordsFault.Usage → fault_of units_command_app texts ≢ []) }
    ensures digits { IfOk result (λ matches.
        HasOptionNumberUpTo (codes "digits") 36 (rows_of (found_of matches))) }
    ensures trial { IfOk result (λ matches.
        HasOptionNumberUpTo (codes "trial") 20000 (rows_of (found_of matches))) }
    ensures column { IfOk result (λ matches.
        HasOptionNumberUpTo (codes "column") 65535 (rows_of (found_of matches))) }
{
    let mut command = units_command(alloc)?;
    match command.try_get_matches_from_mut(words) {
        Ok(matches) => Ok(matches),
        Err(error) => Err(fault_from(&error)),
    }
}

/// Returns the fault that an error of clap amounts to.
pub(crate) fn fault_from(error: &Error) -> WordsFault
    ensures { result ≡ WordsFault.Usage → kind_of error.now ≢ ErrorKind.OutOfMemory }
{
    match error.kind() {
        ErrorKind::OutOfMemory => WordsFault::OutOfMemory,
        _ => WordsFault::Usage,
    }
}
