//! Laws of decks.

ghost use Rattle.deck.specs.BlockExamples.{EnclosingExamplesLaw};
ghost use Rattle.deck.specs.BuiltIn.{PinnedDeckText};
ghost use Rattle.deck.specs.Changes.{KeysChangedByEditLaw};
ghost use Rattle.deck.specs.EnclosingBlocks.{EnclosingLaw};
ghost use Rattle.deck.specs.Examples.{DeckExamplesLaw};
ghost use Rattle.deck.specs.FileLoads.{AppendedDeckLinesLaw, DeckLoadLaw, KnownDeckAppendLaw};
ghost use Rattle.deck_lines.specs.Transcripts.{files_model};
ghost use Rattle.deck.specs.KeyLists.{DeckKeyListLaw, DeckTableKeysLaw};
ghost use Rattle.deck.specs.SettingChanges.{SettingLaw};
ghost use Rattle.deck.specs.Splices.{DeckSpliceInverseLaw};
ghost use Rattle.deck.specs.Tables.{DeckTableLaw};

use deck_lines::{failed_fetches_end_loads, known_files_determine_loads, loads_keep_lines};
use def_entry::same_text_law;
use units_io::Files;

/// The inverse of a splice restores the deck.
pub fn splices_are_undone()
    ensures { DeckSpliceInverseLaw }
{}

/// A change of one setting is undone by restoring its previous value.
pub fn settings_are_undone()
    ensures { SettingLaw }
{}

/// The keys that an edit changes are those whose entries have different texts before and after it.
pub fn changes_are_computed()
    ensures { KeysChangedByEditLaw }
{
    same_text_law();
}

/// If the files are known, they determine the outcome of an append, unless a fetch fails or memory runs out.
pub fn known_files_determine_appends()
    ensures { KnownDeckAppendLaw }
{
    known_files_determine_loads();
}

/// The transcript of a load determines the deck or the error, if the files are known, and the count of failed fetches.
pub fn transcripts_determine_loads<F: Files>()
    ensures { DeckLoadLaw (files_model F.files F.faults F.is_fetch) }
{
    known_files_determine_loads();
    failed_fetches_end_loads();
}

/// An append keeps the lines before it.
pub fn appends_keep_lines()
    ensures { AppendedDeckLinesLaw }
{
    loads_keep_lines();
}

/// The keys of a table are exactly those that have an entry, in order, each once.
pub fn table_keys_law()
    ensures { DeckTableKeysLaw }
{}

/// There is only one list of exactly these keys in order.
pub fn key_lists_are_one()
    ensures { DeckKeyListLaw }
{}

/// A table has at most as many entries as the deck has lines, and each entry is defined by a line.
pub fn tables_are_of_lines()
    ensures { DeckTableLaw }
{}

/// The examples hold: a small deck has the active lines and last places, and edits have the results, that were worked
/// out by hand.
pub fn examples_law()
    ensures { DeckExamplesLaw }
{}

/// A line is active exactly if it has no mark and each block that encloses it holds.
pub fn enclosing_law()
    ensures { EnclosingLaw }
{}

/// The examples with blocks hold: small decks have the active lines that were worked out by hand.
pub fn block_examples_law()
    ensures { EnclosingExamplesLaw }
{}

/// The length and a checksum of the built-in text.
pub fn built_in_is_pinned()
    ensures { PinnedDeckText }
{}
