//! Laws of decks. The calls do nothing: their contracts are the laws.

ghost use Rattle.deck_lines.specs.ClosedBlocks.{ClosedBlocksLaw};
ghost use Rattle.deck_lines.specs.Examples.{ExcerptExamplesLaw};
ghost use Rattle.deck_lines.specs.LoadLaws.{KnownLoadLaw, LastFetchLaw, LoadAskLaw, LoadFailureLaw, LoadKeepsLinesLaw};
ghost use Rattle.deck_lines.specs.LoadLaws.{LoggedFetchesLaw};
ghost use Rattle.deck_lines.specs.TranscriptExamples.{TranscriptExamplesLaw};

/// The deck of a file is closed: every block has its own end line.
pub fn decks_are_closed()
    ensures { ClosedBlocksLaw }
{}

/// A load ends with the first fetch that fails, which is that of the file that it asks for.
pub fn failed_fetches_end_loads()
    ensures failed { LoadFailureLaw }
    ensures asked { LoadAskLaw }
    ensures last { LastFetchLaw }
{}

/// If the files are known, a load appends the deck of its file, unless the lines pass a limit, a fetch fails or memory
/// runs out.
pub fn known_files_determine_loads()
    ensures { KnownLoadLaw }
{}

/// A load keeps the lines before it.
pub fn loads_keep_lines()
    ensures { LoadKeepsLinesLaw }
{}

/// If the state of the files is the list of all fetches that were made, the fetches between two states are those by
/// which the list grows.
pub fn logged_fetches_law()
    ensures { LoggedFetchesLaw }
{}

/// The examples hold: a few texts have the decks that were worked out by hand.
pub fn examples_law()
    ensures { ExcerptExamplesLaw }
{}

/// The examples with transcripts hold: loads have the outcomes that were worked out by hand.
pub fn transcript_examples_law()
    ensures { TranscriptExamplesLaw }
{}
