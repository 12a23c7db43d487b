//! Words that lead nowhere.

ghost use Rattle.std.specs.Prelude.{◌≡◌, IfOk};
ghost use Rattle.live_table.specs.WordTargets.{is_refused_node_destination};
ghost use Rattle.live_table.specs.ExploredNames.{explored_dead_end_fault};
ghost use Rattle.std.specs.Option.{option_copied};

use crate::word_targets::Destination;
use def_entry::Key;
use expr_tree::WordUse;
use std::alloc::{AllocError, Global};
use table_names::NameFault;
use units_io::Text;

/// A word that leads nowhere: a refused name, or an unknown one.
pub(crate) struct DeadEnd {
    pub(crate) text: Text,
    pub(crate) is_refused: bool,
}

// Written by hand, so that code that drops a dead end need not prove anything about its contents.
impl Drop for DeadEnd {
    fn drop(self) {
        let DeadEnd {
            text: _,
            is_refused: _,
        } = self;
    }
}

impl DeadEnd {
    /// Creates the dead end of a word from its destination. The only error is lack of memory.
    pub(crate) fn new(
        alloc: Global,
        u: &WordUse<'_>,
        destination: Destination,
    ) -> Result<DeadEnd, AllocError>
        ensures { IfOk result (λ end. end
            ≡ record { text = u.now.text; is_refused = is_refused_node_destination destination }) }
    {
        let text = Text::from_bytes(alloc, u.text())?;
        let is_refused = matches!(destination, Destination::Refused);
        Ok(DeadEnd { text, is_refused })
    }

    /// Returns the fault of the word in the entry of a key, or in the queried expression if `holder` is `None`. The
    /// only error is lack of memory.
    pub(crate) fn fault(&self, alloc: Global, holder: Option<Key>) -> Result<NameFault, AllocError>
        ensures { IfOk result (λ fault. fault ≡ explored_dead_end_fault (Some self.now) holder) }
    {
        let text = self.text.copy(alloc)?;
        if self.is_refused {
            return Ok(NameFault::Refused(text, holder));
        }
        Ok(NameFault::Unknown(text, holder))
    }
}
