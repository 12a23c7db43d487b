//! Some command lines and their results. The functions here do nothing: their contracts state the examples.
ghost use Rattle.command_line.specs.Examples.{AcceptedCommandLineExamples, RefusedCommandLineExamples};
ghost use Rattle.command_line.specs.Examples.{SingleOptionExamples};

/// Words that form a command line, with its fields.
pub fn taken_examples()
    ensures { AcceptedCommandLineExamples }
{}

/// Each option alone, by its letter and by its name.
pub fn single_option_examples()
    ensures { SingleOptionExamples }
{}

/// Words that do not form a command line.
pub fn refused_examples()
    ensures { RefusedCommandLineExamples }
{}
