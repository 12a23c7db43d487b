//! Reading a line of a session as a command.

ghost use Rattle.std.specs.Prelude.{◌≡◌};
ghost use Rattle.def_entry.specs.Cuts as cuts;
ghost use Rattle.session.specs.Commands as spec;
ghost use Rattle.session.specs.CommandViews.{session_command_view};

use crate::colon_word::{ColonWord, colon_word_of};
use def_entry::cut_at;
use def_lines::{line_content, split_word, trim};

/// An edit of the deck that needs no file.
#[derive(Clone, Copy)]
pub enum DeckEdit<'a> {
    /// Adds a definition line at the end.
    Define(&'a [u8]),
    /// Removes the last definition of what this text names. The text may name no key.
    DropLast(&'a [u8]),
    /// Gives the variable of this name a value.
    Set(&'a [u8], &'a [u8]),
    /// Puts a locale in force.
    Locale(&'a [u8]),
    /// Restores the deck before the last edit.
    Undo,
    /// Restores the deck before the last undo.
    Redo,
}

/// The command that a line of a session gives.
#[derive(Clone, Copy)]
pub enum Command<'a> {
    /// A blank line: does nothing, or replies to FROM alone if one is pending.
    Blank,
    /// Ends the session.
    Quit,
    /// Lists the units that conform to FROM.
    Conformable,
    /// Lists the names that contain a text.
    Search(&'a [u8]),
    /// An edit of the deck that needs no file.
    Edit(DeckEdit<'a>),
    /// Adds the definitions of the file of this name at the end of the deck.
    Load(&'a [u8]),
    /// Stores the deck in the file of this name.
    Save(&'a [u8]),
    /// Watches a conversion: FROM and TO, neither of them blank.
    Watch(&'a [u8], &'a [u8]),
    /// Ends all watches.
    Unwatch,
    /// Reports how many names are settled.
    Stats,
    /// A word that begins with a colon and is not a command word.
    Unknown(&'a [u8]),
    /// A command word whose arguments are missing or wrong.
    Bad(&'a [u8]),
    /// An expression: FROM, or TO if a FROM is pending.
    Expression(&'a [u8]),
}

/// Returns the command that a line gives.
pub fn read_command(line: &[u8]) -> Command<'_>
    ensures { session_command_view result ≡ spec.session_command_of_line line.now }
{
    command_in_text(line_content(line))
}

// Returns the command that the text of a line gives.
#[tactic(auto, unfolding(crate::specs::Commands::session_command_in_text))]
fn command_in_text(text: &[u8]) -> Command<'_>
    ensures { session_command_view result ≡ spec.session_command_in_text text.now }
{
    let Some((first, _)) = text.split_first() else {
        return Command::Blank;
    };
    if text == b"quit".as_slice() || text == b"exit".as_slice() {
        return Command::Quit;
    }
    if text == b"?".as_slice() {
        return Command::Conformable;
    }
    let (word, rest) = split_word(text);
    if *first == b':' {
        return command_by_word(word, rest);
    }
    if word == b"search".as_slice() {
        return search_command(rest, text);
    }
    Command::Expression(text)
}

// `search` with a text; without one it is an expression.
fn search_command<'a>(rest: &'a [u8], text: &'a [u8]) -> Command<'a>
    ensures { session_command_view result ≡ spec.session_search_command rest.now text.now }
{
    if rest.is_empty() {
        Command::Expression(text)
    } else {
        Command::Search(rest)
    }
}

// Returns the command of a word that begins with a colon and the rest of its line.
#[tactic(auto, unfolding(crate::specs::Commands::colon_command))]
fn command_by_word<'a>(word: &'a [u8], rest: &'a [u8]) -> Command<'a>
    ensures { session_command_view result ≡ spec.colon_command word.now rest.now }
{
    match colon_word_of(word) {
        Some(asked) => command_of_word(asked, rest, word),
        None => Command::Unknown(word),
    }
}

// Returns the command of a command word and the rest of its line.
fn command_of_word<'a>(asked: ColonWord, rest: &'a [u8], word: &'a [u8]) -> Command<'a>
    ensures { session_command_view result ≡ spec.colon_command_with_rest asked rest.now word.now }
{
    match asked {
        ColonWord::Define => with_text(Command::Edit(DeckEdit::Define(rest)), rest, word),
        ColonWord::DropLast => Command::Edit(DeckEdit::DropLast(rest)),
        ColonWord::Set => set_command(rest, word),
        ColonWord::Locale => with_text(Command::Edit(DeckEdit::Locale(rest)), rest, word),
        ColonWord::Undo => alone(Command::Edit(DeckEdit::Undo), rest, word),
        ColonWord::Redo => alone(Command::Edit(DeckEdit::Redo), rest, word),
        ColonWord::Load => with_text(Command::Load(rest), rest, word),
        ColonWord::Save => with_text(Command::Save(rest), rest, word),
        ColonWord::Stats => alone(Command::Stats, rest, word),
        ColonWord::Watch => watch_command(rest, word),
        ColonWord::Unwatch => alone(Command::Unwatch, rest, word),
    }
}

// Reads a name, followed by a value.
fn set_command<'a>(rest: &'a [u8], word: &'a [u8]) -> Command<'a>
    ensures { session_command_view result ≡ spec.session_set_command rest.now word.now }
{
    let (name, value) = split_word(rest);
    where_good(
        !value.is_empty(),
        Command::Edit(DeckEdit::Set(name, value)),
        word,
    )
}

// Reads FROM and TO, before and after the first `;`. Neither may be blank, and TO may not be `?`.
fn watch_command<'a>(rest: &'a [u8], word: &'a [u8]) -> Command<'a>
    ensures { session_command_view result ≡ spec.session_watch_of_parts (cuts.cut_at 59 rest.now) word.now }
{
    match cut_at(rest, b';') {
        Some((from, to)) => watch_sides(trim(from), trim(to), word),
        None => Command::Bad(word),
    }
}

// Returns the watch of FROM and TO. Neither may be blank, and TO may not be `?`.
fn watch_sides<'a>(from: &'a [u8], to: &'a [u8], word: &'a [u8]) -> Command<'a>
    ensures { session_command_view result ≡ spec.session_watch_of_sides from.now to.now word.now }
{
    if from.is_empty() || to.is_empty() || to == b"?".as_slice() {
        return Command::Bad(word);
    }
    Command::Watch(from, to)
}

// Returns a command that needs a text after its word.
fn with_text<'a>(command: Command<'a>, rest: &'a [u8], word: &'a [u8]) -> Command<'a>
    ensures { session_command_view result
        ≡ spec.session_command_with_text (session_command_view command.entry) rest.now word.now }
{
    where_good(!rest.is_empty(), command, word)
}

// Returns a command that must have nothing after its word.
fn alone<'a>(command: Command<'a>, rest: &'a [u8], word: &'a [u8]) -> Command<'a>
    ensures { session_command_view result
        ≡ spec.session_command_without_rest (session_command_view command.entry) rest.now word.now }
{
    where_good(rest.is_empty(), command, word)
}

// Returns a command if its arguments are good, or else `Bad` with its word.
fn where_good<'a>(good: bool, command: Command<'a>, word: &'a [u8]) -> Command<'a>
    ensures { session_command_view result
        ≡ spec.session_command_if_good good (session_command_view command.entry) word.now }
{
    if good { command } else { Command::Bad(word) }
}
