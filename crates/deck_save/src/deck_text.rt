//! The saved text of a deck.

ghost use Rattle.std.specs.Prelude.{◌≡◌, ◌≤◌, ◌<◌, ◌++◌, List, ℕ, Some, length, slice_get, IfOk, OnOk, MatchOption};
ghost use Rattle.std.specs.Option.{option_copied, option_to_list};
ghost use Rattle.units_io.specs.FileMap.{longest_file};
ghost use Rattle.units_io.specs.Outcomes.{GivesIoResult};
ghost use Rattle.def_lines.specs.Lines.{line_ends_with};
ghost use Rattle.deck_lines.specs.declared.line.DeckLine.{DeckLine};
ghost use Rattle.deck_save.specs.LineTexts.{saved_texts_of_line, saved_texts_of_lines};
ghost use Rattle.deck_save.specs.SavedText.{saved_file};
ghost use Rattle.deck_save.specs.SavedLines as spec;
ghost use Rattle.deck_save.specs.declared.fault.SaveFault.TheVariants.{OutOfMemory};

use crate::fault::SaveFault;
use deck::Deck;
use def_lines::trim;
use std::alloc::{AllocError, Global};
use units_io::{LONGEST_FILE, Text};

/// Returns the text of a file that has the definitions of the deck: the text of each active line that defines a key, in
/// order, on a line of its own. A text that ends in `\` is followed by one more `\` and an empty line. The error is
/// `TooLong` if this is more than 16,777,216 bytes; the only other error is running out of memory.
pub fn save_text(alloc: Global, deck: &Deck) -> Result<Text, SaveFault>
    ensures { GivesIoResult OutOfMemory (λ (text : List ℕ). text) result (saved_file deck.now) }
{
    let active = deck.active_lines(alloc)?;
    let Some(len) = saved_len(deck, active.as_slice()) else {
        return Err(SaveFault::TooLong);
    };
    let lines = saved_lines(alloc, deck, active.as_slice(), len)?;
    Ok(Text::from(lines))
}

// Returns the total length in bytes of the saved lines of a deck, given which of its lines are active, or `None` if it
// is more than the maximum length of a file.
fn saved_len(deck: &Deck, active: &[bool]) -> Option<usize>
    requires { length active.now ≡ length deck.now.lines }
    ensures { MatchOption result
        (longest_file < length (spec.saved_lines (saved_texts_of_lines active.now deck.now.lines)))
        (λ len. (len ≡ length (spec.saved_lines (saved_texts_of_lines active.now deck.now.lines)))
        × (len ≤ longest_file)) }
{
    let mut len = 0;
    for place in 0..active.len() {
        let more = len_at(deck, active[place], place);
        if more > LONGEST_FILE - len {
            return None;
        }
        len += more;
    }
    Some(len)
}

// Returns the length in bytes of the saved line for the line at `place`, or 0 if that line is not saved.
fn len_at(deck: &Deck, active: bool, place: usize) -> usize
    ensures { (line : DeckLine) → slice_get deck.now.lines place ≡ Some line
        → result ≡ length (spec.saved_lines (saved_texts_of_line active line)) }
{
    match text_at(deck, active, place) {
        Some(text) => text.len() + line_end(text).len(),
        None => 0,
    }
}

// Returns the saved lines of a deck, given which of its lines are active. `len` is their total length in bytes.
fn saved_lines(
    alloc: Global,
    deck: &Deck,
    active: &[bool],
    len: usize,
) -> Result<Vec<u8>, AllocError>
    requires { length active.now ≡ length deck.now.lines }
    ensures { IfOk result (λ lines. lines.items ≡ spec.saved_lines (saved_texts_of_lines active.now deck.now.lines)) }
{
    let mut lines = Vec::with_capacity(alloc, len)?;
    for place in 0..active.len() {
        put_at(&mut lines, deck, active[place], place)?;
    }
    Ok(lines)
}

// Appends the saved line for the line at `place`, if that line is saved.
fn put_at(lines: &mut Vec<u8>, deck: &Deck, active: bool, place: usize) -> Result<(), AllocError>
    ensures { OnOk result ((line : DeckLine) → slice_get deck.now.lines place ≡ Some line
        → lines.new.items ≡ lines.old.items ++ spec.saved_lines (saved_texts_of_line active line)) }
{
    match text_at(deck, active, place) {
        Some(text) => put_line(lines, text),
        None => Ok(()),
    }
}

// Returns the text of the line at `place`, without blanks at the ends, or `None` if it is not active or defines no key.
fn text_at(deck: &Deck, active: bool, place: usize) -> Option<&[u8]>
    ensures { (line : DeckLine) → slice_get deck.now.lines place ≡ Some line
        → saved_texts_of_line active line ≡ option_to_list (option_copied result) }
{
    if !active {
        return None;
    }
    if deck.key_at(place).is_none() {
        return None;
    }
    let Some(line) = deck.lines().get(place) else {
        return None;
    };
    Some(trim(line.text.as_bytes()))
}

// Appends a text as a line.
fn put_line(lines: &mut Vec<u8>, text: &[u8]) -> Result<(), AllocError>
    ensures { OnOk result (lines.new.items ≡ lines.old.items ++ spec.saved_line text.now) }
{
    lines.extend_from_slice(text)?;
    lines.extend_from_slice(line_end(text))
}

// Returns the bytes that end the line of a text.
fn line_end(text: &[u8]) -> &'static [u8]
    ensures { result.now ≡ spec.saved_line_end text.now }
{
    if goes_on(text) { b"\\\n\n" } else { b"\n" }
}

// Reports whether the line of a text would continue on the next line.
fn goes_on(text: &[u8]) -> bool
    ensures { result ≡ line_ends_with 92 text.now }
{
    match text.split_last() {
        Some((last, _)) => *last == b'\\',
        None => false,
    }
}
