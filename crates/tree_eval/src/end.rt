//! The two ends of a function: the requirements on its argument and on its result.

ghost use Rattle.std.specs.Prelude.{◌≡◌, Ok};
ghost use Rattle.std.specs.Option.{option_copied};
ghost use Rattle.tree_eval.specs.Answers.{GivesValueOrFault, IsEvalResult};
ghost use Rattle.tree_eval.specs.Ends.{IsEvalEnd, value_tested_at_end};
ghost use Rattle.tree_eval.specs.Refusals.{eval_refusal_fault};
ghost use Rattle.tree_eval.specs.Tests as spec;

use crate::answer::fraction_answer;
use crate::fault::EvalFault;
use crate::holder::Part;
use crate::refusal::Refusal;
use def_entry::{Bound, FunctionDef, Span};
use expr_tree::Tree;
use frac128::Frac;
use quantity::Quantity;
use std::alloc::Global;

/// One end of a function: the requirements on a quantity there, and the faults if it does not meet them.
#[derive(Clone, Copy)]
pub(crate) struct End<'f> {
    /// The tree of the function that holds the unit.
    pub(crate) part: Part,
    /// The unit that the quantity has to conform to.
    pub(crate) unit: &'f Option<Tree>,
    /// The interval that has to contain the number of the quantity in the unit.
    span: &'f Option<Span>,
    // The refusals of a quantity that does not conform, and of one whose number is outside the interval.
    wrong: Refusal,
    outside: Refusal,
}

impl<'f> End<'f> {
    // The end at which a call takes its argument.
    pub(crate) fn argument(f: &'f FunctionDef) -> End<'f>
        ensures { IsEvalEnd result Part.InUnit f.now.in_unit f.now.domain Refusal.WrongArgument Refusal.NotInDomain }
    {
        End {
            part: Part::InUnit,
            unit: &f.in_unit,
            span: &f.domain,
            wrong: Refusal::WrongArgument,
            outside: Refusal::NotInDomain,
        }
    }

    // The end at which a call gives its result.
    pub(crate) fn result(f: &'f FunctionDef) -> End<'f>
        ensures { IsEvalEnd result Part.OutUnit f.now.out_unit f.now.range Refusal.WrongResult Refusal.NotInRange }
    {
        End {
            part: Part::OutUnit,
            unit: &f.out_unit,
            span: &f.range,
            wrong: Refusal::WrongResult,
            outside: Refusal::NotInRange,
        }
    }

    // The end at which an inverse takes its value.
    pub(crate) fn value(f: &'f FunctionDef) -> End<'f>
        ensures { IsEvalEnd result Part.OutUnit f.now.out_unit f.now.range Refusal.WrongArgument Refusal.NotInRange }
    {
        End {
            wrong: Refusal::WrongArgument,
            ..End::result(f)
        }
    }

    // The end at which an inverse gives its result.
    pub(crate) fn inverse(f: &'f FunctionDef) -> End<'f>
        ensures { IsEvalEnd result Part.InUnit f.now.in_unit f.now.domain Refusal.WrongResult Refusal.NotInDomain }
    {
        End {
            wrong: Refusal::WrongResult,
            ..End::argument(f)
        }
    }

    // Checks that a quantity meets the requirements of this end: it conforms to the unit, whose value is `unit`, and
    // its number in the unit is in the span.
    pub(crate) fn check(
        &self,
        alloc: Global,
        name: &[u8],
        unit: Option<&Quantity>,
        q: &Quantity,
    ) -> Result<(), EvalFault>
        ensures { GivesValueOrFault (λ _. q.now) result
            (value_tested_at_end name.now (Ok (option_copied unit.entry)) self.now q.now) }
    {
        self.check_unit(alloc, name, unit, q)?;
        self.check_span(alloc, name, unit, q)
    }

    // Checks that a quantity conforms to the unit, or, if there is only a span, that it is a number.
    fn check_unit(
        &self,
        alloc: Global,
        name: &[u8],
        unit: Option<&Quantity>,
        q: &Quantity,
    ) -> Result<(), EvalFault>
        ensures { GivesValueOrFault (λ _. q.now) result
            (spec.value_unit_check (eval_refusal_fault self.now.wrong name.now)
            (option_copied unit.entry) self.now.span.now q.now) }
    {
        let conforms = match unit {
            Some(unit) => q.conforms(unit),
            None => self.span.is_none() || q.is_number(),
        };
        if conforms {
            Ok(())
        } else {
            Err(self.wrong.by(alloc, name))
        }
    }

    // Checks that the number of a quantity in the unit is in the span, if there is one.
    fn check_span(
        &self,
        alloc: Global,
        name: &[u8],
        unit: Option<&Quantity>,
        q: &Quantity,
    ) -> Result<(), EvalFault>
        ensures { GivesValueOrFault (λ _. q.now) result
            (spec.value_inside_span (eval_refusal_fault self.now.outside name.now)
            (option_copied unit.entry) self.now.span.now q.now) }
    {
        let Some(span) = self.span else {
            return Ok(());
        };
        if is_within(span, &number_in(alloc, unit, q)?) {
            Ok(())
        } else {
            Err(self.outside.by(alloc, name))
        }
    }
}

// Returns the number of a quantity in the unit, or its own number if there is no unit.
fn number_in(alloc: Global, unit: Option<&Quantity>, q: &Quantity) -> Result<Frac, EvalFault>
    ensures { IsEvalResult result (spec.value_number_in_unit (option_copied unit.entry) q.now) }
{
    match unit {
        Some(unit) => fraction_answer(alloc, q.value().div(&unit.value())),
        None => Ok(q.value()),
    }
}

// Whether a number is in the span.
fn is_within(span: &Span, x: &Frac) -> bool
    ensures { result ≡ spec.is_value_within_span span.now x.now }
{
    is_above(&span.low, x) && is_below(&span.high, x)
}

// Whether a number is above the lower bound, or equal to it if the bound is closed.
fn is_above(bound: &Option<Bound>, x: &Frac) -> bool
    ensures { result ≡ spec.is_above_value_bound bound.now x.now }
{
    match bound {
        None => true,
        Some(bound) if bound.closed => bound.at.cmp(x).is_le(),
        Some(bound) => bound.at.cmp(x).is_lt(),
    }
}

// Whether a number is below the upper bound, or equal to it if the bound is closed.
fn is_below(bound: &Option<Bound>, x: &Frac) -> bool
    ensures { result ≡ spec.is_below_value_bound bound.now x.now }
{
    match bound {
        None => true,
        Some(bound) if bound.closed => x.cmp(&bound.at).is_le(),
        Some(bound) => x.cmp(&bound.at).is_lt(),
    }
}
