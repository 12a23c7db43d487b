//! A session: its state and its prompt.

ghost use Rattle.std.specs.Prelude.{◌≡◌, [], None};
ghost use Rattle.reply.specs.Options.{AreReplyOptionsPrintable};
ghost use Rattle.session.specs.Sessions.{prompt, session_of};
ghost use Rattle.session.specs.Versions.{no_session_versions};

use crate::workspace::Workspace;
use edit_history::History;
use live_table::LiveTable;
use reply::Options;
use std::alloc::Global;
use std::marker::Model;
use watch::Watches;

/// A session. Contracts see the options for its replies, the live table, the text of FROM if one is pending, the
/// versions of the deck that an undo and a redo restore, and the watched conversions.
pub struct Session {
    pub(crate) workspace: Workspace,
}

// Written by hand, so that code that drops a session need not prove anything about its contents.
impl Drop for Session {
    fn drop(self) {
        let Session { workspace: _ } = self;
    }
}

impl Model for Session {
    ghost use Rattle.session.specs.Sessions.{IsOneSession, SessionState, session_in, session_state_code};

    ghost Value = { SessionState };

    ghost coded = { session_state_code };

    ghost view = { λ s. session_in s.workspace };

    ghost invariant = { λ s. IsOneSession s.workspace };
}

impl Session {
    /// Returns a session over a table, with no pending FROM, nothing to undo and nothing watched. Allocates no memory.
    pub fn new(alloc: Global, table: LiveTable, options: Options) -> Session
        requires { AreReplyOptionsPrintable options }
        ensures { result ≡ session_of options table None no_session_versions [] }
    {
        Session {
            workspace: Workspace {
                options,
                table,
                history: History::new(alloc),
                pending: None,
                watches: Watches::new(alloc),
            },
        }
    }

    /// Returns the prompt in the present state.
    #[tactic(auto, unfolding(crate::specs::Sessions::prompt))]
    pub fn prompt(&self) -> &[u8]
        ensures { result.now ≡ prompt self.now }
    {
        if self.workspace.options.quiet {
            return b"".as_slice();
        }
        match &self.workspace.pending {
            None => b"You have: ".as_slice(),
            Some(_) => b"You want: ".as_slice(),
        }
    }

    /// Returns whether the session is quiet: nothing is written before its first line, and it has no prompts.
    pub(crate) fn is_quiet(&self) -> bool
        ensures { result ≡ self.now.options.quiet }
    {
        self.workspace.options.quiet
    }

    /// Borrows the live table.
    pub fn table(&self) -> &LiveTable
        ensures { result.now ≡ self.now.table }
    {
        &self.workspace.table
    }
}
