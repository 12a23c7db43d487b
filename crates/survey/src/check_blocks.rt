//! The check report in blocks, so that its lines can be written as they are made.

ghost use Rattle.std.specs.Prelude.{◌≡◌, ◌++◌, ◌<◌, ◌≤◌, IfOk, OnErr, length, take};
ghost use Rattle.deck.specs.PlacedKeys.{deck_keys_at_places};
ghost use Rattle.deck.specs.Tables as tables;
ghost use Rattle.live_table.specs.TableView.{AreLiveEventsCutOff, IsAfterLiveEvents, IsRightLiveView};
ghost use Rattle.reply.specs.Options.{AreReplyOptionsPrintable, reply_style};
ghost use Rattle.survey.specs.Checks as spec;

use crate::key_checks::KeyCheck;
use live_table::LiveTable;
use std::alloc::{AllocError, Global};
use std::sync::ledger::Ledger;
use units_io::Steps;

// A block ends with the line that brings it to this length.
const BLOCK: usize = 65_536;

/// Checks the keys in order and appends their lines, until the text has 65,536 bytes or no key is left. Returns the
/// number of keys that were checked: at least one, if there are any. Does not change the deck. The only error is
/// running out of memory; some of the queries for the keys were then made.
pub fn put_check_block<L: Ledger>(
    alloc: Global,
    lines: &mut Vec<u8>,
    table: &mut LiveTable,
    check: &KeyCheck<'_>,
    steps: &mut Steps<L>,
) -> Result<usize, AllocError>
    requires printable { AreReplyOptionsPrintable check.now.options.now }
    requires right { IsRightLiveView table.old }
    ensures within { IfOk result (λ n. n ≤ length check.now.places.now) }
    ensures some { IfOk result (λ n. 0 < length check.now.places.now → 0 < n) }
    ensures lines { IfOk result (λ n. lines.new.items ≡ lines.old.items
        ++ spec.check_among (tables.table_of_deck table.old.deck) (reply_style check.now.options.now)
        (deck_keys_at_places table.old.deck.lines (take n check.now.places.now))) }
    ensures queries { IfOk result (λ n. IsAfterLiveEvents
        (spec.queries_among (tables.table_of_deck table.old.deck)
        (deck_keys_at_places table.old.deck.lines (take n check.now.places.now)))
        table.old table.new steps.old steps.new) }
    ensures cut_off { OnErr result (AreLiveEventsCutOff
        (spec.queries_among (tables.table_of_deck table.old.deck)
        (deck_keys_at_places table.old.deck.lines check.now.places.now)) table.old table.new steps.old steps.new) }
    ensures deck { table.new.deck ≡ table.old.deck }
{
    let places = check.places;
    let mut done = 0usize;
    while done < places.len() {
        check.put_check_at(alloc, lines, table, places[done], steps)?;
        done += 1;
        if lines.len() >= BLOCK {
            return Ok(done);
        }
    }
    Ok(done)
}
