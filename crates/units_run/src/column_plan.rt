//! The plan of a column conversion.

use crate::column_task::ColumnTask;

/// A column of the input to be converted, and the notices of the definitions, which are written first.
pub struct ColumnPlan {
    pub notices: Vec<u8>,
    pub task: ColumnTask,
}

// Written by hand, so that code that drops a plan need not prove anything about its contents.
impl Drop for ColumnPlan {
    fn drop(self) {
        let ColumnPlan {
            notices: _,
            task: _,
        } = self;
    }
}
