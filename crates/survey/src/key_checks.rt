//! The check report.

ghost use Rattle.std.specs.Prelude.{◌≡◌, ◌++◌, IfOk, OnOk};
ghost use Rattle.deck.specs.KeyLists.{deck_table_keys};
ghost use Rattle.deck.specs.PlacedKeys.{deck_key_at_place, deck_keys_at_places};
ghost use Rattle.deck.specs.Tables as tables;
ghost use Rattle.def_entry.specs.declared.key.Kind.TheVariants as kinds;
ghost use Rattle.live_table.specs.Calls.{AreLiveQueries, settle_all_queries};
ghost use Rattle.live_table.specs.TableView.{IsRightLiveView};
ghost use Rattle.reply.specs.Calls as call;
ghost use Rattle.reply.specs.Inquiries as inquiries;
ghost use Rattle.reply.specs.Options.{AreReplyOptionsPrintable, reply_style};
ghost use Rattle.survey.specs.Checks as spec;
ghost use Rattle.survey.specs.Places.{search_hits_of_key};

use crate::check_result::{Finding, parts_finding};
use crate::finding_lines::put_finding;
use crate::key_expressions::valued_trees;
use crate::keys::copy_key;
use crate::prefix_faults::prefix_fault;
use crate::table_queries::ask_function;
use def_entry::{Key, Kind};
use expr_tree::Tree;
use live_table::{LiveTable, QueryFault};
use reply::{Options, evaluate_texts};
use std::alloc::{AllocError, Global};
use std::sync::ledger::Ledger;
use units_io::{Steps, Text};

/// A check of the keys whose lines are at these places, and the options for the lines of its report.
#[derive(Clone, Copy)]
pub struct KeyCheck<'a> {
    pub options: &'a Options,
    pub places: &'a [usize],
}

/// Returns the check report as one text: a line for each key that has a fault, in the order of keys. Queries all names
/// first and then what each key needs. Does not change the deck. The only error is running out of memory.
pub fn check_report<L: Ledger>(
    alloc: Global,
    table: &mut LiveTable,
    options: &Options,
    steps: &mut Steps<L>,
) -> Result<Text, AllocError>
    requires { AreReplyOptionsPrintable options.now }
    ensures report { IfOk result (λ text.
        text ≡ spec.check_report (tables.table_of_deck table.old.deck) (reply_style options.now)) }
    ensures queries { AreLiveQueries (spec.check_queries (tables.table_of_deck table.old.deck)) result
        table.old table.new steps.old steps.new }
    ensures deck { table.new.deck ≡ table.old.deck }
{
    let places = check_places(alloc, table, steps)?;
    let mut lines = Vec::new(alloc);
    let check = KeyCheck {
        options,
        places: places.as_slice(),
    };
    check.put_checks(alloc, &mut lines, table, steps)?;
    Ok(Text::from(lines))
}

/// Returns the places of the lines that define the keys of a check report, in the order of the report. Queries all
/// names. Does not change the deck. The only error is running out of memory.
pub fn check_places<L: Ledger>(
    alloc: Global,
    table: &mut LiveTable,
    steps: &mut Steps<L>,
) -> Result<Vec<usize>, AllocError>
    ensures keys { IfOk result (λ places. deck_keys_at_places table.old.deck.lines places.items
        ≡ deck_table_keys (tables.table_of_deck table.old.deck)) }
    ensures queries { AreLiveQueries (settle_all_queries (tables.table_of_deck table.old.deck)) result
        table.old table.new steps.old steps.new }
    ensures deck { table.new.deck ≡ table.old.deck }
{
    let places = table.deck().key_places(alloc)?;
    table.settle_all(alloc, steps)?;
    Ok(places)
}

impl KeyCheck<'_> {
    // Appends a line for each key that has a fault.
    fn put_checks<L: Ledger>(
        &self,
        alloc: Global,
        lines: &mut Vec<u8>,
        table: &mut LiveTable,
        steps: &mut Steps<L>,
    ) -> Result<(), AllocError>
        requires printable { AreReplyOptionsPrintable self.now.options.now }
        requires right { IsRightLiveView table.old }
        ensures lines { OnOk result (lines.new.items ≡ lines.old.items
            ++ spec.check_among (tables.table_of_deck table.old.deck) (reply_style self.now.options.now)
            (deck_keys_at_places table.old.deck.lines self.now.places.now)) }
        ensures queries { AreLiveQueries
            (spec.queries_among (tables.table_of_deck table.old.deck)
            (deck_keys_at_places table.old.deck.lines self.now.places.now))
            result table.old table.new steps.old steps.new }
        ensures deck { table.new.deck ≡ table.old.deck }
    {
        for place in self.places {
            self.put_check_at(alloc, lines, table, *place, steps)?;
        }
        Ok(())
    }

    /// Appends the line of the key at `place`, if it has a fault.
    pub(crate) fn put_check_at<L: Ledger>(
        &self,
        alloc: Global,
        lines: &mut Vec<u8>,
        table: &mut LiveTable,
        place: usize,
        steps: &mut Steps<L>,
    ) -> Result<(), AllocError>
        requires printable { AreReplyOptionsPrintable self.now.options.now }
        requires right { IsRightLiveView table.old }
        ensures line { OnOk result (lines.new.items ≡ lines.old.items
            ++ search_hits_of_key (spec.check_line (tables.table_of_deck table.old.deck)
            (reply_style self.now.options.now)) (deck_key_at_place table.old.deck.lines place)) }
        ensures queries { AreLiveQueries
            (search_hits_of_key (λ k. (spec.key_finding (tables.table_of_deck table.old.deck) k).events)
            (deck_key_at_place table.old.deck.lines place)) result table.old table.new steps.old steps.new }
        ensures deck { table.new.deck ≡ table.old.deck }
    {
        let Some(key) = table.deck().key_at(place) else {
            return Ok(());
        };
        let key = copy_key(alloc, key.kind, key.name)?;
        self.put_check(alloc, lines, table, &key, steps)
    }

    // Appends the line of a key, if it has a fault.
    fn put_check<L: Ledger>(
        &self,
        alloc: Global,
        lines: &mut Vec<u8>,
        table: &mut LiveTable,
        key: &Key,
        steps: &mut Steps<L>,
    ) -> Result<(), AllocError>
        requires printable { AreReplyOptionsPrintable self.now.options.now }
        requires right { IsRightLiveView table.old }
        ensures line { OnOk result (lines.new.items ≡ lines.old.items
            ++ spec.check_line (tables.table_of_deck table.old.deck) (reply_style self.now.options.now) key.now) }
        ensures queries { AreLiveQueries (spec.key_finding (tables.table_of_deck table.old.deck) key.now).events result
            table.old table.new steps.old steps.new }
        ensures deck { table.new.deck ≡ table.old.deck }
    {
        let found = check_key(alloc, table, key, steps);
        put_finding(alloc, lines, self.options, key, found)
    }
}

// Checks a key.
fn check_key<L: Ledger>(
    alloc: Global,
    table: &mut LiveTable,
    key: &Key,
    steps: &mut Steps<L>,
) -> Result<Finding, QueryFault>
    requires { IsRightLiveView table.old }
    ensures inquired { call.IsInquiryAnswered call.inquiry_identity
        (spec.key_finding (tables.table_of_deck table.old.deck) key.now)
        (call.inquiry_result result) table.old table.new steps.old steps.new }
    ensures deck { table.new.deck ≡ table.old.deck }
{
    let trees = valued_trees(alloc, table.deck(), key)?;
    let trees = trees.as_slice();
    match key.kind {
        Kind::Unit => unit_checked(alloc, table, trees, steps),
        Kind::Prefix => prefix_checked(alloc, table, key, trees, steps),
        Kind::Func => function_checked(alloc, table, key, trees, steps),
        Kind::List => list_checked(alloc, table, trees, steps),
    }
}

// Checks a unit.
fn unit_checked<L: Ledger>(
    alloc: Global,
    table: &mut LiveTable,
    trees: &[Tree],
    steps: &mut Steps<L>,
) -> Result<Finding, QueryFault>
    ensures inquired { call.IsInquiryAnswered call.inquiry_identity (spec.sound_finding
        (inquiries.values_of_trees (tables.table_of_deck table.old.deck) (call.inquiry_syntaxes trees.now)))
        (call.inquiry_result result) table.old table.new steps.old steps.new }
    ensures deck { table.new.deck ≡ table.old.deck }
{
    evaluate_texts(alloc, table, trees, steps)?;
    Ok(Finding::Sound)
}

// Checks a prefix.
fn prefix_checked<L: Ledger>(
    alloc: Global,
    table: &mut LiveTable,
    key: &Key,
    trees: &[Tree],
    steps: &mut Steps<L>,
) -> Result<Finding, QueryFault>
    ensures inquired { call.IsInquiryAnswered call.inquiry_identity
        (spec.checked_by (tables.table_of_deck table.old.deck) kinds.Prefix key.now
        (inquiries.values_of_trees (tables.table_of_deck table.old.deck) (call.inquiry_syntaxes trees.now)))
        (call.inquiry_result result) table.old table.new steps.old steps.new }
    ensures deck { table.new.deck ≡ table.old.deck }
{
    match evaluate_texts(alloc, table, trees, steps) {
        Ok(_) => Ok(Finding::Sound),
        Err(QueryFault::Name(fault)) => Err(QueryFault::Name(prefix_fault(alloc, key, fault)?)),
        Err(fault) => Err(fault),
    }
}

// Checks a function, an alias or a table.
fn function_checked<L: Ledger>(
    alloc: Global,
    table: &mut LiveTable,
    key: &Key,
    trees: &[Tree],
    steps: &mut Steps<L>,
) -> Result<Finding, QueryFault>
    requires { IsRightLiveView table.old }
    ensures inquired { call.IsInquiryAnswered call.inquiry_identity
        (spec.checked_by (tables.table_of_deck table.old.deck) kinds.Func key.now
        (inquiries.values_of_trees (tables.table_of_deck table.old.deck) (call.inquiry_syntaxes trees.now)))
        (call.inquiry_result result) table.old table.new steps.old steps.new }
    ensures deck { table.new.deck ≡ table.old.deck }
{
    ask_function(alloc, table, key, steps)?;
    evaluate_texts(alloc, table, trees, steps)?;
    Ok(Finding::Sound)
}

// Checks a list.
fn list_checked<L: Ledger>(
    alloc: Global,
    table: &mut LiveTable,
    trees: &[Tree],
    steps: &mut Steps<L>,
) -> Result<Finding, QueryFault>
    ensures inquired { call.IsInquiryAnswered call.inquiry_identity (spec.list_finding
        (inquiries.values_of_trees (tables.table_of_deck table.old.deck) (call.inquiry_syntaxes trees.now)))
        (call.inquiry_result result) table.old table.new steps.old steps.new }
    ensures deck { table.new.deck ≡ table.old.deck }
{
    let parts = evaluate_texts(alloc, table, trees, steps)?;
    Ok(parts_finding(parts.as_slice()))
}
