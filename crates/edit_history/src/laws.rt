//! Laws of histories. The functions do nothing: the contract of each is the law.

ghost use Rattle.edit_history.specs.Laws.{HistoryRepliesLaw, HistoryTimelineLaw, UndoRedoLaw};

/// The calls of a history, described by whole versions of the deck.
pub fn histories_are_timelines()
    ensures { HistoryTimelineLaw }
{}

/// An undo after an edit restores the version before it, and a redo after an undo restores what the undo took back.
pub fn undo_gives_back()
    ensures { UndoRedoLaw }
{}

/// The replies of the table are the same in all decks of one version.
pub fn replies_are_of_versions()
    ensures { HistoryRepliesLaw }
{}
