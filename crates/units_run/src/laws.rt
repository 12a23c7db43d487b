//! Laws about the words of a run, and examples. The functions do nothing: the contract of each is the law.

ghost use Rattle.units_run.specs.Examples.{RunExamples};
ghost use Rattle.units_run.specs.FileExamples.{RunFileExamples};
ghost use Rattle.units_run.specs.Laws.{RunEndingLaw, RunNeedLaws, RunStatusLaw};

use command_line::{refused_examples, taken_examples};
use deck::key_lists_are_one;
use reply::grant_examples_law;

/// Files and input that the words do not need make no difference.
pub fn need_laws()
    ensures { RunNeedLaws }
{}

/// A run ends in one of the ways that its words allow.
pub fn ending_law()
    ensures { RunEndingLaw }
{}

/// Words that need neither files nor input end with the status of their run, even if no contents are known.
pub fn status_law()
    ensures { RunStatusLaw }
{}

/// Some words and the runs that they lead to.
pub fn run_examples()
    ensures { RunExamples }
{
    taken_examples();
    refused_examples();
}

/// Some runs over a file of a few lines, from the words to the bytes written.
pub fn file_examples()
    ensures { RunFileExamples }
{
    taken_examples();
    key_lists_are_one();
    grant_examples_law();
}
