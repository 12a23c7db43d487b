//! A watched conversion.

ghost use Rattle.std.specs.Prelude.{◌≡◌, IfOk, OnErr, OnOk};
ghost use Rattle.deck.specs.Tables as tables;
ghost use Rattle.live_table.specs.Calls.{AreLiveQueries};
ghost use Rattle.reply.specs.Options.{AreReplyOptionsPrintable};
ghost use Rattle.watch.specs.Changes.{is_news};
ghost use Rattle.watch.specs.WatchViews as spec;

use live_table::LiveTable;
use reply::{Options, convert_reply};
use std::alloc::{AllocError, Global};
use std::sync::ledger::Ledger;
use units_io::{Steps, Text};

/// A conversion to watch.
#[derive(Clone, Copy)]
pub(crate) struct Subject<'a> {
    pub(crate) from: &'a [u8],
    pub(crate) to: &'a [u8],
}

/// FROM and TO of a conversion, and the bytes of its last reply.
pub(crate) struct Watch {
    pub(crate) from: Text,
    pub(crate) to: Text,
    pub(crate) reply: Text,
}

// Written by hand, so that code that drops a watch need not prove anything about its contents.
impl Drop for Watch {
    fn drop(self) {
        let Watch {
            from: _,
            to: _,
            reply: _,
        } = self;
    }
}

/// Returns the bytes of the reply to a conversion in the present table. The only error is running out of memory.
#[tactic(auto, unfolding(crate::specs::WatchViews::reply_to, crate::specs::WatchViews::queries_of))]
fn reply_bytes<L: Ledger>(
    alloc: Global,
    table: &mut LiveTable,
    options: &Options,
    subject: &Subject<'_>,
    steps: &mut Steps<L>,
) -> Result<Text, AllocError>
    requires { AreReplyOptionsPrintable options.now }
    ensures bytes { IfOk result (λ bytes. bytes ≡ spec.reply_to (tables.table_of_deck table.old.deck) options.now
        (spec.watch_subject subject.now.from.now subject.now.to.now)) }
    ensures queries { AreLiveQueries
        (spec.queries_of (tables.table_of_deck table.old.deck) options.now
        (spec.watch_subject subject.now.from.now subject.now.to.now))
        result table.old table.new steps.old steps.new }
    ensures deck { table.new.deck ≡ table.old.deck }
{
    let reply = convert_reply(alloc, table, options, subject.from, subject.to, steps)?;
    Ok(reply.text)
}

/// Returns a watch of this conversion, with its reply in the present table. The only error is running out of memory.
pub(crate) fn watch_on<L: Ledger>(
    alloc: Global,
    table: &mut LiveTable,
    options: &Options,
    subject: &Subject<'_>,
    steps: &mut Steps<L>,
) -> Result<Watch, AllocError>
    requires { AreReplyOptionsPrintable options.now }
    ensures watch { IfOk result (λ watch. watch ≡ spec.watch_on (tables.table_of_deck table.old.deck) options.now
        (spec.watch_subject subject.now.from.now subject.now.to.now)) }
    ensures queries { AreLiveQueries
        (spec.queries_of (tables.table_of_deck table.old.deck) options.now
        (spec.watch_subject subject.now.from.now subject.now.to.now))
        result table.old table.new steps.old steps.new }
    ensures deck { table.new.deck ≡ table.old.deck }
{
    let reply = reply_bytes(alloc, table, options, subject, steps)?;
    let from = Text::from_bytes(alloc, subject.from)?;
    let to = Text::from_bytes(alloc, subject.to)?;
    Ok(Watch { from, to, reply })
}

impl Watch {
    /// Queries the reply again and stores it. Returns whether its bytes differ from the last ones. The only error is
    /// running out of memory, which leaves the watch as it was.
    pub(crate) fn renew<L: Ledger>(
        &mut self,
        alloc: Global,
        table: &mut LiveTable,
        options: &Options,
        steps: &mut Steps<L>,
    ) -> Result<bool, AllocError>
        requires { AreReplyOptionsPrintable options.now }
        ensures news { IfOk result (λ news.
            news ≡ is_news (spec.change_of (tables.table_of_deck table.old.deck) options.now self.old)) }
        ensures renewed { OnOk result (self.new
            ≡ spec.with_current_reply (tables.table_of_deck table.old.deck) options.now self.old) }
        ensures same { OnErr result (self.new ≡ self.old) }
        ensures queries { AreLiveQueries
            (spec.queries_of (tables.table_of_deck table.old.deck) options.now (spec.subject_of_watch self.old))
            result table.old table.new steps.old steps.new }
        ensures deck { table.new.deck ≡ table.old.deck }
    {
        let from = self.from.as_bytes();
        let to = self.to.as_bytes();
        let reply = reply_bytes(alloc, table, options, &Subject { from, to }, steps)?;
        let news = self.reply.as_bytes() != reply.as_bytes();
        self.reply = reply;
        Ok(news)
    }
}
