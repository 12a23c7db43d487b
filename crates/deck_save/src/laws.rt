//! Laws of saved texts. The calls do nothing: their contracts are the laws.

ghost use Rattle.deck_save.specs.Examples.{SaveExamplesLaw};
ghost use Rattle.deck_save.specs.Laws.{SavableLineLaw, SavedAgainLaw, SavedAnswerLaw, SavedFileLaw, SavedTextLaw};

use def_entry::entry_law;

/// A deck that is loaded from the saved text of another deck has no notices and has the same definitions, whatever its
/// settings are.
pub fn saved_decks_are_given_back()
    ensures file { SavedFileLaw }
    ensures text { SavedTextLaw }
    ensures answer { SavedAnswerLaw }
{
    entry_law();
}

/// A deck that was loaded from a saved text has the same saved text again.
pub fn saved_texts_are_kept()
    ensures { SavedAgainLaw }
{}

/// A line that defines a key can be saved unchanged on a line of its own: it contains no line feed, no carriage return
/// and no `#`.
pub fn accepted_lines_stay()
    ensures { SavableLineLaw }
{
    entry_law();
}

/// The examples hold: a few decks have the saved texts that were worked out by hand.
pub fn examples_law()
    ensures { SaveExamplesLaw }
{}
