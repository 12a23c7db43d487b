//! Laws of the grammar and of the plain rules.

ghost use Rattle.expr_tree.specs.Arguments.{ArgumentFreeTreeLaw};
ghost use Rattle.expr_tree.specs.Examples.{TreeExamplesLaw};
ghost use Rattle.expr_tree.specs.WellFormed.{WellFormedTreeLaw};
ghost use Rattle.expr_tree.specs.Grammar.{OneTreeLaw};
ghost use Rattle.expr_tree.specs.Laws.{ParseMemoryLaw, TokensWithTreeLaw};
ghost use Rattle.expr_tree.specs.ParseResult.{ParsedLaw};
ghost use Rattle.expr_tree.specs.TokenReading.{TreeOfTokenListLaw};
ghost use Rattle.expr_tree.specs.TextExamples.{ExpressionTextExamplesLaw};
ghost use Rattle.expr_tree.specs.Views.{SyntaxViewLaw};

/// Tokens have at most one tree, with any binder or none.
pub fn one_tree_law()
    ensures { OneTreeLaw }
{}

/// Tokens have a tree exactly if each of them is allowed at its place and they may end after the last.
pub fn complete_law()
    ensures { TokensWithTreeLaw }
{}

/// The function `tree_of` returns a tree exactly if the grammar derives it.
pub fn reading_law()
    ensures { TreeOfTokenListLaw }
{}

/// A text is parsed to the tree of its tokens if it has no fault, and otherwise to its first fault.
pub fn parsed_law()
    ensures { ParsedLaw }
{}

/// A few token lists have the trees that were worked out by hand.
pub fn examples_law()
    ensures { TreeExamplesLaw }
{}

/// A text is parsed to a well-formed tree: no list in it is empty, the first member of a product multiplies, and the
/// first member of a sum has a plus.
pub fn formed_law()
    ensures { WellFormedTreeLaw }
{}

/// The tree of a text that is parsed without a binder contains no argument.
pub fn free_law()
    ensures { ArgumentFreeTreeLaw }
{}

/// The meaning of a tree of each kind follows from the meanings of its parts.
pub fn view_law()
    ensures { SyntaxViewLaw }
{}

/// A few texts have the tokens and the first faults that were worked out by hand.
pub fn text_examples_law()
    ensures { ExpressionTextExamplesLaw }
{}

/// The specified result for a text is a tree or a fault of the text, never a lack of memory.
pub fn parse_memory_law()
    ensures { ParseMemoryLaw }
{}
