//! Conversions.

ghost use Rattle.std.specs.Prelude.{◌≡◌, true};
ghost use Rattle.deck.specs.Tables as tables;
ghost use Rattle.def_entry.specs.declared.key.Kind.TheVariants as kinds;
ghost use Rattle.def_entry.specs.Keys as keys;
ghost use Rattle.def_entry.specs.Tables.{is_entry_present};
ghost use Rattle.reply.specs.Calls as call;
ghost use Rattle.reply.specs.Conversions as spec;
ghost use Rattle.reply.specs.Targets as targets;

use crate::comparison::{compare_quantities, count_units};
use crate::failure::Failure;
use crate::question::Question;
use crate::ratio::Ratio;
use crate::target::{Target, target_of};
use crate::text_evaluation::{evaluate_text, evaluate_texts, part_trees};
use live_table::LiveTable;
use quantity::Quantity;
use std::alloc::Global;
use std::sync::ledger::Ledger;
use unit_list::Fracs;
use units_io::{Steps, Text};

/// The result of a conversion, before it is written.
pub(crate) enum Conversion {
    /// How often TO goes into FROM, and how often FROM goes into TO.
    Linear(Ratio),
    /// How often TO goes into 1/FROM, and how often 1/FROM goes into TO.
    Reciprocal(Ratio),
    /// The inverse of the function of the target at FROM.
    Inverse(Quantity),
    /// The text of a list, and the counts of its parts.
    Split(Text, Fracs),
    /// Two quantities that do not conform.
    NonConforming(Quantity, Quantity),
}

// Written by hand, so that code that drops a conversion need not prove anything about its contents.
impl Drop for Conversion {
    fn drop(self) {
        match self {
            Conversion::Linear(_)
            | Conversion::Reciprocal(_)
            | Conversion::Inverse(_)
            | Conversion::Split(_, _)
            | Conversion::NonConforming(_, _) => (),
        }
    }
}

impl Question<'_> {
    /// Converts FROM to TO.
    pub(crate) fn convert<L: Ledger>(
        &self,
        alloc: Global,
        table: &mut LiveTable,
        steps: &mut Steps<L>,
    ) -> Result<Conversion, Failure>
        ensures deck { table.new.deck ≡ table.old.deck }
        ensures inquired { call.IsInquiryAnswered call.inquiry_identity
            (spec.conversion (tables.table_of_deck table.old.deck) self.now.options.now self.now.from.now
            self.now.to.now) result table.old table.new steps.old steps.new }
    {
        let x = evaluate_text(alloc, table, self.from, steps)?;
        let target = target_of(alloc, table.deck(), self.to)?;
        self.convert_to_target(alloc, table, target, x, steps)
    }

    // Converts a quantity to TO, which is this target.
    fn convert_to_target<L: Ledger>(
        &self,
        alloc: Global,
        table: &mut LiveTable,
        target: Target,
        x: Quantity,
        steps: &mut Steps<L>,
    ) -> Result<Conversion, Failure>
        requires { target ≡ targets.conversion_target (tables.table_of_deck table.old.deck) self.now.to.now }
        ensures deck { table.new.deck ≡ table.old.deck }
        ensures inquired { call.IsInquiryAnswered call.inquiry_identity
            (spec.converted_to (tables.table_of_deck table.old.deck) self.now.options.now self.now.to.now target x)
            result table.old table.new steps.old steps.new }
    {
        match target {
            Target::Function => apply_inverse(alloc, table, self.to, x, steps),
            Target::Parts(list) => self.convert_to_list(alloc, table, list, x, steps),
            Target::Unit => self.convert_to_unit(alloc, table, x, steps),
        }
    }

    // Converts a quantity to TO, which is a unit.
    fn convert_to_unit<L: Ledger>(
        &self,
        alloc: Global,
        table: &mut LiveTable,
        x: Quantity,
        steps: &mut Steps<L>,
    ) -> Result<Conversion, Failure>
        ensures deck { table.new.deck ≡ table.old.deck }
        ensures inquired { call.IsInquiryAnswered call.inquiry_identity
            (spec.conversion_to_unit (tables.table_of_deck table.old.deck) self.now.options.now self.now.to.now x)
            result table.old table.new steps.old steps.new }
    {
        let y = evaluate_text(alloc, table, self.to, steps)?;
        compare_quantities(alloc, self.options.strict, x, &y)
    }

    // Splits a quantity into the units of a list.
    fn convert_to_list<L: Ledger>(
        &self,
        alloc: Global,
        table: &mut LiveTable,
        list: Text,
        x: Quantity,
        steps: &mut Steps<L>,
    ) -> Result<Conversion, Failure>
        ensures deck { table.new.deck ≡ table.old.deck }
        ensures inquired { call.IsInquiryAnswered call.inquiry_identity
            (spec.conversion_to_list (tables.table_of_deck table.old.deck) self.now.options.now list x) result
            table.old table.new steps.old steps.new }
    {
        // The cached outcomes are right even if nothing is queried.
        table.outcomes_are_right();
        let trees = part_trees(alloc, list.as_bytes())?;
        let units = evaluate_texts(alloc, table, trees.as_slice(), steps)?;
        count_units(alloc, self.options.round, list, x, units)
    }
}

// Applies the inverse of the function with this name.
fn apply_inverse<L: Ledger>(
    alloc: Global,
    table: &mut LiveTable,
    name: &[u8],
    x: Quantity,
    steps: &mut Steps<L>,
) -> Result<Conversion, Failure>
    requires there { is_entry_present (tables.table_of_deck table.old.deck) (keys.key kinds.Func name.now) ≡ true }
    ensures deck { table.new.deck ≡ table.old.deck }
    ensures inquired { call.IsInquiryAnswered call.inquiry_identity
        (spec.inverse_conversion (tables.table_of_deck table.old.deck) name.now x) result
        table.old table.new steps.old steps.new }
{
    let y = table.unapply(alloc, name, &x, steps)?;
    Ok(Conversion::Inverse(y))
}
