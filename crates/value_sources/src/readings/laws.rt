//! Laws of readings.

ghost use Rattle.value_sources.specs.ReadingExamples.{ReadingExamplesLaw};
ghost use Rattle.value_sources.specs.ReadingLaws.{FirstReadingLaw};

/// Lookup of a word that names no unit and no function finds its first reading, or nothing if it has none.
pub fn first_reading_law()
    ensures { FirstReadingLaw }
{}

/// Some words have the readings that were determined by hand.
pub fn reading_examples_law()
    ensures { ReadingExamplesLaw }
{}
