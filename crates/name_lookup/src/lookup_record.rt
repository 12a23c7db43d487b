//! A record of the keys that a lookup looks at.

ghost use Rattle.std.specs.Prelude.{◌≡◌, ◌++◌, ◌∷◌, [], IfOk, List};
ghost use Rattle.def_entry.specs.Keys.{key};
ghost use Rattle.def_entry.specs.declared.key.Key.{Key};
ghost use Rattle.def_entry.specs.SameKeys.{is_entry_key_among};
ghost use Rattle.name_lookup.specs.LookupRelations.{IsKeptByLookup};

use crate::present::Present;
use def_entry::Kind;
use std::alloc::{AllocError, Global};

/// A record of the keys that were looked at. Its implementor chooses how to store them.
pub trait Looking {
    // the keys that were looked at, in order
    ghost looked: { Self → List Key };

    // states that `look` may be called with a table of these keys
    ghost can_look: { List Key → Self → Type 0 };

    // the relation to an earlier state that is preserved by looking at a table of these keys
    ghost is_kept: { List Key → Self → Self → Type 0 };

    /// Looks at the key with this kind and name, and returns whether the table has it. The only error is running out of
    /// memory.
    fn look<P: Present>(
        &mut self,
        alloc: Global,
        table: &P,
        kind: Kind,
        name: &[u8],
    ) -> Result<bool, AllocError>
        requires { can_look (P.keys table.now) self.old }
        ensures answer { IfOk result (λ present. present ≡ is_entry_key_among (P.keys table.now) (key kind name.now)) }
        ensures looked { IfOk result (λ _. looked self.new ≡ looked self.old ++ key kind name.now ∷ []) }
        ensures ready { can_look (P.keys table.now) self.new }
        ensures kept { IsKeptByLookup (is_kept (P.keys table.now)) self.old self.new };
}
