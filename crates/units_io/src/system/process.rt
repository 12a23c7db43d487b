//! The words of the command line and the variables of the environment, as bytes.
ghost use Rattle.std.specs.Prelude.{◌≡◌, ◌++◌, ◌∷◌, [], OnOk, OnErr};
ghost use Rattle.std.specs.Io.{WritesAtMost};
ghost use Rattle.std.specs.Str.{is_utf8};
ghost use Rattle.units_io.specs.Environment as spec;

use crate::hash_seed::HashSeed;
use crate::list::Texts;
use crate::text::Text;
use crate::vars::Vars;
use std::alloc::{AllocError, Global};
use std::env::FillError;
use std::random::RandomSource;
use std::rt::Env;
use std::str;

// The length of a buffer that holds most entries.
const USUAL_LEN: usize = 256;

// The number of times that the buffer is doubled before an entry counts as too long for memory.
const MOST_DOUBLINGS: usize = 24;

// The place to read an entry from.
#[derive(Clone, Copy)]
enum Place {
    Word(usize),
    Variable(usize),
}

/// Returns the command-line words after the program's name.
pub fn collect_words<R: Env>(rt: &R, alloc: Global) -> Result<Texts, AllocError> {
    let mut buffer = vec![in alloc; 0u8; USUAL_LEN]?;
    let mut words = Texts::new(alloc);
    for i in 1..usize::MAX {
        let Some(word) = read_entry(rt, Place::Word(i), &mut buffer)? else {
            break;
        };
        push_word(alloc, &mut words, word)?;
    }
    Ok(words)
}

// Appends a copy of this word.
fn push_word(alloc: Global, words: &mut Texts, word: &[u8]) -> Result<(), AllocError>
    ensures ok { OnOk result (words.new ≡ words.old ++ word.now ∷ []) }
    ensures err { OnErr result (words.new ≡ words.old) }
{
    let word = Text::from_bytes(alloc, word)?;
    words.push(alloc, word)
}

/// Returns the variables of the environment that are UTF-8. If a name occurs twice, the first one counts. The table of
/// the variables has a random seed, which the tables of the run inherit.
pub fn collect_vars<R: Env + RandomSource>(rt: &R, alloc: Global) -> Result<Vars, AllocError> {
    let mut buffer = vec![in alloc; 0u8; USUAL_LEN]?;
    let mut vars = Vars::with_seed(alloc, HashSeed::random(rt));
    for i in 0..usize::MAX {
        let Some(entry) = read_entry(rt, Place::Variable(i), &mut buffer)? else {
            break;
        };
        add_entry(alloc, &mut vars, entry)?;
    }
    Ok(vars)
}

// Returns the bytes of the entry at this place, or `None` after the last entry. The buffer, which receives the bytes,
// is doubled until they fit.
fn read_entry<'a, R: Env>(
    rt: &R,
    place: Place,
    buffer: &'a mut Vec<u8>,
) -> Result<Option<&'a [u8]>, AllocError> {
    for _ in 0..MOST_DOUBLINGS {
        match fill_buffer(rt, place, buffer.as_mut_slice()) {
            Ok(len) => return Ok(Some(&buffer[..len])),
            Err(FillError::NotPresent) => return Ok(None),
            Err(FillError::TooLong) => buffer.resize(buffer.len().saturating_mul(2), 0)?,
        }
    }
    Err(AllocError)
}

// Copies the bytes of the entry at this place to the front of the buffer, and returns how many.
fn fill_buffer<R: Env>(rt: &R, place: Place, buffer: &mut [u8]) -> Result<usize, FillError>
    ensures { WritesAtMost result buffer.new }
{
    match place {
        Place::Word(i) => rt.arg(i, buffer),
        Place::Variable(i) => rt.var_at(i, buffer),
    }
}

// Adds the variable of an entry `NAME=VALUE` that is UTF-8 and has a new name. Any other entry changes nothing. The
// only error is running out of memory, which changes nothing either.
fn add_entry(alloc: Global, vars: &mut Vars, entry: &[u8]) -> Result<(), AllocError>
    ensures ok { OnOk result (vars.new ≡ spec.process_variables_with_entry vars.old entry.now) }
    ensures err { OnErr result (vars.new ≡ vars.old) }
{
    if !is_text(entry) {
        return Ok(());
    }
    let Some(place) = place_of_mark(entry) else {
        return Ok(());
    };
    push_new(alloc, vars, &entry[..place], &entry[place + 1..])
}

// Returns whether the bytes of an entry are UTF-8.
fn is_text(entry: &[u8]) -> bool
    ensures { result ≡ is_utf8 entry.now }
{
    match str::from_utf8(entry) {
        Ok(_) => true,
        Err(_) => false,
    }
}

// Returns the place of the first `=`.
fn place_of_mark(entry: &[u8]) -> Option<usize>
    ensures { result ≡ spec.process_entry_mark_place entry.now }
{
    entry.iter().position(|b| *b == b'=')
}

// Appends a variable, unless its name has a value already.
fn push_new(alloc: Global, vars: &mut Vars, name: &[u8], value: &[u8]) -> Result<(), AllocError>
    ensures ok { OnOk result (vars.new ≡ spec.process_variables_with_new vars.old name.now value.now) }
    ensures err { OnErr result (vars.new ≡ vars.old) }
{
    if vars.value(name).is_some() {
        return Ok(());
    }
    vars.push_copy(alloc, name, value)
}
