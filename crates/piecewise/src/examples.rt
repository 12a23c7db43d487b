//! Some tables and their values. The function here does nothing: its contract states the examples.
ghost use Rattle.piecewise.specs.Examples.{PointTableExamples};

/// Tables, and their values in both directions.
pub fn table_examples()
    ensures { PointTableExamples }
{}
