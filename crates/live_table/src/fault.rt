//! Why a query has no result.

use std::alloc::AllocError;
use table_names::NameFault;
use tree_eval::ValueFault;

/// Why a query has no result.
#[derive(Drop)]
pub enum QueryFault {
    /// The names of the query lead to no value.
    Name(NameFault),
    /// The query has no value.
    Value(ValueFault),
    /// Memory ran out.
    OutOfMemory,
}

impl From<AllocError> for QueryFault {
    ghost use Rattle.std.specs.Prelude.{◌≡◌};
    ghost use Rattle.live_table.specs.declared.fault.QueryFault.TheVariants.{OutOfMemory};

    ghost from_gives = { λ _ fault. fault ≡ OutOfMemory };

    fn from(_error: AllocError) -> QueryFault {
        QueryFault::OutOfMemory
    }
}
