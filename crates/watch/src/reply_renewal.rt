//! Renewing the replies of watches.

ghost use Rattle.std.specs.Prelude.{◌≡◌, ◌++◌, [], IfOk, OnErr, OnOk, if◌then◌else◌, map};
ghost use Rattle.deck.specs.Tables as tables;
ghost use Rattle.live_table.specs.Calls.{AreLiveQueries};
ghost use Rattle.live_table.specs.TableView.{IsRightLiveView};
ghost use Rattle.reply.specs.Options.{AreReplyOptionsPrintable};
ghost use Rattle.watch.specs.Calls.{AreWatchesPartlyRenewed};
ghost use Rattle.watch.specs.Changes.{watch_notice, watch_report};
ghost use Rattle.watch.specs.WatchViews as spec;

use crate::notices::put_notice;
use crate::watch::Watch;
use live_table::LiveTable;
use reply::Options;
use std::alloc::{AllocError, Global};
use std::sync::ledger::Ledger;
use units_io::Steps;

/// Queries the replies of all watches again, in order, and returns the report on those that changed.
pub(crate) fn renew_all<L: Ledger>(
    alloc: Global,
    watches: &mut Vec<Watch>,
    table: &mut LiveTable,
    options: &Options,
    steps: &mut Steps<L>,
) -> Result<Vec<u8>, AllocError>
    requires printable { AreReplyOptionsPrintable options.now }
    requires right { IsRightLiveView table.old }
    ensures report { IfOk result (λ report. report.items
        ≡ watch_report (map (spec.change_of (tables.table_of_deck table.old.deck) options.now) watches.old.items)) }
    ensures renewed { OnOk result (watches.new.items
        ≡ map (spec.with_current_reply (tables.table_of_deck table.old.deck) options.now) watches.old.items) }
    ensures partly { OnErr result
        (AreWatchesPartlyRenewed (tables.table_of_deck table.old.deck) options.now watches.old.items
        watches.new.items) }
    ensures queries { AreLiveQueries
        (spec.all_queries (tables.table_of_deck table.old.deck) options.now watches.old.items)
        result table.old table.new steps.old steps.new }
    ensures deck { table.new.deck ≡ table.old.deck }
{
    let mut report = Vec::new(alloc);
    let count = watches.len();
    for place in 0..count {
        let watch = &mut watches[place];
        let news = watch.renew(alloc, table, options, steps)?;
        put_if_news(alloc, &mut report, place + 1, watch, news)?;
    }
    Ok(report)
}

// Appends the line and the reply of a watch if the reply is news.
fn put_if_news(
    alloc: Global,
    report: &mut Vec<u8>,
    number: usize,
    watch: &Watch,
    news: bool,
) -> Result<(), AllocError>
    ensures { OnOk result (report.new.items ≡ report.old.items
        ++ (if news then watch_notice number watch.now.reply else [])) }
{
    if !news {
        return Ok(());
    }
    put_notice(alloc, report, number, watch.reply.as_bytes())
}
