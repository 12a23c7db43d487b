//! The cached outcomes of names.

ghost use Rattle.std.specs.Prelude.{◌≡◌, ◌<◌, IfOk, Some, length, slice_get};
ghost use Rattle.std.specs.FinMap as map_of;
ghost use Rattle.std.specs.Option.{option_copied};
ghost use Rattle.deck.specs.Tables.{table_of_deck};
ghost use Rattle.table_names.specs.Meanings.{outcome};
ghost use Rattle.tree_eval.specs.declared.outcome.Outcome.{Outcome as AnyOutcome};

use super::LiveTable;
use crate::nodes::Nodes;
use def_entry::Key;
use std::alloc::{AllocError, Global};
use tree_eval::Outcome;

impl LiveTable {
    /// Returns the outcome of a key that a query has reached and that no edit has affected since, which is its outcome
    /// in the table of the present deck, or `None` for any other key. It evaluates nothing. The only error is lack of
    /// memory.
    pub fn cached_outcome(&self, alloc: Global, key: &Key) -> Result<Option<&Outcome>, AllocError>
        ensures cached { IfOk result (λ cached. option_copied cached ≡ map_of.get self.now.kept_outcomes key.now) }
        ensures right { IfOk result (λ cached. (o : AnyOutcome) → option_copied cached ≡ Some o
            → o ≡ outcome (table_of_deck self.now.deck) key.now) }
    {
        match self.nodes.keys.find(alloc, key.kind, key.name.as_bytes())? {
            Some(n) => Ok(outcome_at(&self.nodes, n)),
            None => Ok(None),
        }
    }
}

// Returns the outcome of the name with number `n`, or `None` if it is not settled.
fn outcome_at(nodes: &Nodes, n: usize) -> Option<&Outcome>
    requires { n < length nodes.now.outcomes.items }
    ensures { slice_get nodes.now.outcomes.items n ≡ Some (option_copied result) }
{
    nodes.outcomes[n].as_ref()
}
