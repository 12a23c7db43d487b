//! Laws of the definitions that the contracts cite.

ghost use Rattle.units_io.specs.Environment.{ProcessVariablesLaw};

/// The examples of entries and their variables hold.
pub fn process_variables_law()
    ensures { ProcessVariablesLaw }
{}
