//! The watched conversions.

ghost use Rattle.std.specs.Prelude.{◌≡◌, ◌↔◌, ◌+◌, ◌++◌, ◌∷◌, ◌≤◌, [], IfOk, IsErrOf, OnErr, OnOk, length, map};
ghost use Rattle.deck.specs.Tables as tables;
ghost use Rattle.def_entry.specs.Tables.{EntryTable};
ghost use Rattle.live_table.specs.Calls.{AreLiveQueries};
ghost use Rattle.reply.specs.Options.{AreReplyOptionsPrintable};
ghost use Rattle.watch.specs.Calls as calls;
ghost use Rattle.watch.specs.Changes.{watch_notice, watch_report};
ghost use Rattle.watch.specs.Edits.{report_by_edit};
ghost use Rattle.watch.specs.WatchViews as spec;
ghost use Rattle.watch.specs.declared.fault.WatchFault.TheVariants.{TooMany};

use crate::fault::WatchFault;
use crate::notices::put_notice;
use crate::reply_renewal::renew_all;
use crate::watch::{Subject, Watch, watch_on};
use live_table::LiveTable;
use reply::Options;
use std::alloc::{AllocError, Global};
use std::marker::Model;
use std::sync::ledger::Ledger;
use units_io::{Steps, Text};

/// The largest number of conversions that can be watched.
pub const MOST_WATCHES: usize = 1000;

/// The watched conversions, at most 1,000, in the order in which they were added. Contracts see each as FROM, TO and
/// the bytes of its last reply.
pub struct Watches {
    items: Vec<Watch>,
}

// Written by hand, so that code that drops watches need not prove anything about their contents.
impl Drop for Watches {
    fn drop(self) {
        let Watches { items: _ } = self;
    }
}

impl Model for Watches {
    ghost use Rattle.std.specs.Prelude.{◌≤◌, List, vec_len};
    ghost use Rattle.watch.specs.WatchViews.{most_watches};
    ghost use Rattle.watch.specs.declared.watch.Watch as watch_spec;

    ghost Value = { List watch_spec.Watch };

    ghost view = { λ watches. watches.items.items };

    ghost invariant = { λ watches. vec_len watches.items ≤ most_watches };
}

impl Watches {
    /// Returns a list without watches. Allocates no memory.
    pub fn new(alloc: Global) -> Watches
        ensures { result ≡ [] }
    {
        Watches {
            items: Vec::new(alloc),
        }
    }

    /// Removes all watches. Allocates no memory.
    pub fn clear(&mut self)
        ensures { self.new ≡ [] }
    {
        self.items.clear();
    }

    /// Adds a watch of a conversion at the end. Returns the line `watch K`, where K is its number, counted from 1, and
    /// the reply in the present table. Makes the queries of the reply. Returns `TooMany` exactly if 1,000 conversions
    /// are already watched, and then makes no query; the only other error is running out of memory. After an error the
    /// watches are as before.
    pub fn add<L: Ledger>(
        &mut self,
        alloc: Global,
        table: &mut LiveTable,
        options: &Options,
        from: &[u8],
        to: &[u8],
        steps: &mut Steps<L>,
    ) -> Result<Text, WatchFault>
        requires { AreReplyOptionsPrintable options.now }
        ensures text { let table = tables.table_of_deck table.old.deck in IfOk result (λ text.
            text ≡ watch_notice (length self.old + 1)
            (spec.reply_to table options.now (spec.watch_subject from.now to.now))) }
        ensures added { OnOk result (self.new ≡ self.old
            ++ spec.watch_on (tables.table_of_deck table.old.deck) options.now (spec.watch_subject from.now to.now)
            ∷ []) }
        ensures kept { OnErr result (self.new ≡ self.old) }
        ensures full { IsErrOf result TooMany ↔ (length self.old ≡ spec.most_watches) }
        ensures few { length self.new ≤ spec.most_watches }
        ensures queries { calls.AreWatchQueries
            (spec.queries_of (tables.table_of_deck table.old.deck) options.now (spec.watch_subject from.now to.now))
            result table.old table.new steps.old steps.new }
        ensures deck { table.new.deck ≡ table.old.deck }
        ensures current { let table = tables.table_of_deck table.old.deck in
            spec.AreCurrent table options.now self.old → spec.AreCurrent table options.now self.new }
    {
        let count = self.items.len();
        if count >= MOST_WATCHES {
            return Err(WatchFault::TooMany);
        }
        let watch = watch_on(alloc, table, options, &Subject { from, to }, steps)?;
        let mut text = Vec::new(alloc);
        put_notice(alloc, &mut text, count + 1, watch.reply.as_bytes())?;
        self.items.push(watch)?;
        Ok(Text::from(text))
    }

    /// Queries the reply of each watch again, in order. Returns the line `watch K` and the new reply for each watch
    /// whose bytes differ from the stored ones: after an edit, these are exactly the watches whose replies in the
    /// tables before and after it differ. Stores the replies in the present table. The only error is running out of
    /// memory; then the watches up to some place have their present reply, and the others still have their last one.
    pub fn after_edit<L: Ledger>(
        &mut self,
        alloc: Global,
        table: &mut LiveTable,
        options: &Options,
        steps: &mut Steps<L>,
    ) -> Result<Text, AllocError>
        requires { AreReplyOptionsPrintable options.now }
        ensures reported_changes { IfOk result (λ text.
            text ≡ watch_report (map (spec.change_of (tables.table_of_deck table.old.deck) options.now) self.old)) }
        ensures edit { (before : EntryTable) → spec.AreCurrent before options.now self.old → IfOk result (λ text. text
            ≡ report_by_edit before (tables.table_of_deck table.old.deck) options.now
            (map spec.subject_of_watch self.old)) }
        ensures renewed { OnOk result (self.new
            ≡ map (spec.with_current_reply (tables.table_of_deck table.old.deck) options.now) self.old) }
        ensures current { OnOk result (spec.AreCurrent (tables.table_of_deck table.old.deck) options.now self.new) }
        ensures partly { OnErr result
            (calls.AreWatchesPartlyRenewed (tables.table_of_deck table.old.deck) options.now self.old self.new) }
        ensures queries { AreLiveQueries (spec.all_queries (tables.table_of_deck table.old.deck) options.now self.old)
            result table.old table.new steps.old steps.new }
        ensures deck { table.new.deck ≡ table.old.deck }
    {
        table.outcomes_are_right();
        let report = renew_all(alloc, &mut self.items, table, options, steps)?;
        Ok(Text::from(report))
    }
}
