//! The plan of a check report.

use live_table::LiveTable;
use reply::Options;

/// A check report to be written: the notices of the definitions, which come first in the report, their table, and the
/// options for its faults.
pub struct CheckPlan {
    pub notices: Vec<u8>,
    pub table: LiveTable,
    pub options: Options,
}

// Written by hand, so that dropping a plan needs no proof about its contents.
impl Drop for CheckPlan {
    fn drop(self) {
        let CheckPlan {
            notices: _,
            table: _,
            options: _,
        } = self;
    }
}
