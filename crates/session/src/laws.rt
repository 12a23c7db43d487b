//! Laws of a session. The functions do nothing: the contract of each is the law.

ghost use Rattle.session.specs.AnswerExamples.{AnswerExamples};
ghost use Rattle.session.specs.CommandExamples.{SessionCommandExamples};
ghost use Rattle.session.specs.HistoryLaws.{SessionHistoryLaws, SessionSaveLaw};
ghost use Rattle.session.specs.Laws.{InputLineLaws};
ghost use Rattle.session.specs.Queries.{LeavesSessionTableLaw};
ghost use Rattle.session.specs.TrialLines.{TrialExamples};

use deck_save::saved_decks_are_given_back;
use reply::grant_examples_law;

/// The lines of an input, and those that a session hears.
pub fn line_laws()
    ensures { InputLineLaws }
{}

/// The state that queries and edits leave a live table in does not depend on earlier steps.
pub fn leaves_law()
    ensures { LeavesSessionTableLaw }
{}

/// The commands that some lines give.
pub fn command_examples()
    ensures { SessionCommandExamples }
{}

/// The answers to some lines.
pub fn answer_examples()
    ensures { AnswerExamples }
{
    grant_examples_law();
}

/// The definitions and one round of a short trial.
pub fn trial_examples()
    ensures { TrialExamples }
{}

/// Cached outcomes affect only the answer to `:stats`, and versions of the deck only those to `:undo` and `:redo`. An
/// undo after an edit restores the lines, the settings and the table.
pub fn history_laws()
    ensures { SessionHistoryLaws }
{}

/// Loading what a session saved restores its definitions.
pub fn save_law()
    ensures { SessionSaveLaw }
{
    saved_decks_are_given_back();
}
