//! The lines of a few files, worked out by hand. The function does nothing: its contract states the examples.
ghost use Rattle.def_lines.specs.Examples.{LogicalLinesLaw, DirectiveListingsLaw, LineKindsLaw};

/// A few files have the lines, a few lines the kinds, and a few texts the words that the rules of the format require.
pub fn examples_law()
    ensures lines { LogicalLinesLaw }
    ensures kinds { LineKindsLaw }
    ensures listed { DirectiveListingsLaw }
{}
