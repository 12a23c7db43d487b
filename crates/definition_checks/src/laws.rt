//! The functions do nothing: the contract of each states the examples.

ghost use Rattle.definition_checks.specs.CallPlaces.{CallPlaceExamples};
ghost use Rattle.definition_checks.specs.IncludeDepth.{IncludeDepthExamples};
ghost use Rattle.definition_checks.specs.IntervalEnds.{IntervalEndExamples};
ghost use Rattle.definition_checks.specs.LocaleBlocks.{LocaleBlockExamples};
ghost use Rattle.definition_checks.specs.NumberLimits.{NumberLimitExamples};
ghost use Rattle.definition_checks.specs.PrintedLayouts.{PrintedLayoutExamples};
ghost use Rattle.definition_checks.specs.ShadowedLines.{ShadowedLineExamples};

/// Numbers at the limits of plain and scientific notation.
pub fn printed_layout_examples()
    ensures { PrintedLayoutExamples }
{}

/// Sums and exponents at their limits.
pub fn number_limit_examples()
    ensures { NumberLimitExamples }
{}

/// Words before an argument in parentheses.
pub fn call_place_examples()
    ensures { CallPlaceExamples }
{}

/// Numbers at the ends of intervals.
pub fn interval_end_examples()
    ensures { IntervalEndExamples }
{}

/// Blocks of locales that differ little from the locale of the deck.
pub fn locale_block_examples()
    ensures { LocaleBlockExamples }
{}

/// Files that include themselves as often as is allowed.
pub fn include_depth_examples()
    ensures { IncludeDepthExamples }
{}

/// Lines that a later line shadows, in a saved file.
pub fn shadowed_line_examples()
    ensures { ShadowedLineExamples }
{}
