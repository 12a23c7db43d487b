//! Laws of rows.

ghost use Rattle.column_convert.specs.Blocks.{RowBlocksLaw};
ghost use Rattle.column_convert.specs.Examples.{ColumnExamplesLaw};
ghost use Rattle.column_convert.specs.Products.{CellProductLaw};
ghost use Rattle.column_convert.specs.Rows.{ColumnRowsLaw};
ghost use Rattle.column_convert.specs.CellValues.{CellQueriesAgainLaw, CellReplyLaw, CellValueLaw};

/// The rows are the next row and the rows after it, and so are the queries made for them.
pub fn rows_law()
    ensures { ColumnRowsLaw }
{}

/// The rows are those of the next `n` records and the rows after them, and so are the queries made for them.
pub fn blocks_law()
    ensures { RowBlocksLaw }
{}

/// The rows of a few inputs equal those worked out by hand.
pub fn examples_law()
    ensures { ColumnExamplesLaw }
{}

/// The text of a number times an expression is parsed as their product, whatever the number.
pub fn product_law()
    ensures { CellProductLaw }
{}

/// The reply to the conversion of a number times an expression follows from the value of the expression.
pub fn cell_value_law()
    ensures { CellValueLaw }
{}

/// The reply to a number follows from the values of FROM and TO.
pub fn valued_law()
    ensures { CellReplyLaw }
{}

/// If the words of several texts were queried, one text after another, querying them again takes no step.
pub fn again_law()
    ensures { CellQueriesAgainLaw }
{}
