//! Laws. The functions do nothing: their contracts are the laws.

ghost use Rattle.edited_table.specs.Words.{TellStatuses};

/// The text of each fault determines its status.
pub fn statuses_law()
    ensures { TellStatuses }
{}
