//! Shows how a call of a function is evaluated.

ghost use Rattle.reply.specs.Options.{AreReplyOptionsPrintable};

use crate::callee::{Callee, callee_of, span_at, unit_at};
use crate::evaluator::Evaluator;
use crate::interval::{End, EndTest, Interval, end_test};
use crate::segment::{Segment, segment_at, segment_back};
use crate::substitution::value_at;
use crate::values::value_text;
use def_entry::{FunctionDef, What};
use expr_tree::Tree;
use live_table::QueryFault;
use quantity::Quantity;
use reply::Options;
use std::alloc::AllocError;
use std::sync::ledger::Ledger;
use units_io::Text;

/// The direction in which a function is called.
#[derive(Clone, Copy, Drop)]
pub(crate) enum Branch {
    /// By its expression or its table.
    Forward,
    /// By its inverse.
    Inverse,
}

/// How a call of a function is evaluated.
pub(crate) struct CallTrace {
    pub(crate) branch: Branch,
    /// The value at which the function is called.
    pub(crate) operand: Text,
    /// The tests against the domain and the range that the function has, in the order of evaluation. A test that fails
    /// is the last one.
    pub(crate) tests: Vec<EndTest>,
    /// The points of a table between which the value lies.
    pub(crate) segment: Option<Segment>,
}

// Written by hand, so that code that drops a call trace need not prove anything about its contents.
impl Drop for CallTrace {
    fn drop(self) {
        let CallTrace {
            branch: _,
            operand: _,
            tests: _,
            segment: _,
        } = self;
    }
}

/// Returns how a call is evaluated. `None` if its operand has no value, its word is not a function, or a name that the
/// call reaches is unknown, refused or on a cycle: then nothing is tested.
pub(crate) fn trace_call<L: Ledger>(
    evaluator: &mut Evaluator<L>,
    options: &Options,
    call: &Tree,
) -> Result<Option<CallTrace>, AllocError>
    requires { AreReplyOptionsPrintable options.now }
{
    let (branch, word, operand) = match call {
        Tree::Call(word, operand) => (Branch::Forward, word, operand),
        Tree::Inverse(word, operand) => (Branch::Inverse, word, operand),
        _ => return Ok(None),
    };
    if has_name_fault(evaluator, call)? {
        return Ok(None);
    }
    let Some(value) = evaluator.value_if_any(operand)? else {
        return Ok(None);
    };
    match callee_of(evaluator.alloc, evaluator.deck(), word.as_bytes())? {
        Some(callee) => Ok(Some(trace_at(evaluator, options, branch, &callee, &value)?)),
        None => Ok(None),
    }
}

// Returns how a function is evaluated at a value.
fn trace_at<L: Ledger>(
    evaluator: &mut Evaluator<L>,
    options: &Options,
    branch: Branch,
    callee: &Callee,
    value: &Quantity,
) -> Result<CallTrace, AllocError>
    requires { AreReplyOptionsPrintable options.now }
{
    let alloc = evaluator.alloc;
    let mut trace = CallTrace {
        branch,
        operand: value_text(alloc, options, value)?,
        tests: Vec::new(alloc),
        segment: None,
    };
    match &callee.what {
        What::Function(function) => trace.put_tests(evaluator, options, function, value)?,
        What::Table(table) => {
            let text = callee.text.as_bytes();
            trace.segment = segment_of(evaluator, &table.unit, text, branch, value)?;
        }
        _ => {}
    }
    Ok(trace)
}

// Returns whether a name that an expression reaches is unknown, refused or on a cycle.
fn has_name_fault<L: Ledger>(
    evaluator: &mut Evaluator<L>,
    tree: &Tree,
) -> Result<bool, AllocError> {
    match evaluator.value(tree) {
        Err(QueryFault::Name(_)) => Ok(true),
        Err(QueryFault::OutOfMemory) => Err(AllocError),
        _ => Ok(false),
    }
}

impl CallTrace {
    // Appends the tests of a call of a function at a value.
    fn put_tests<L: Ledger>(
        &mut self,
        evaluator: &mut Evaluator<L>,
        options: &Options,
        function: &FunctionDef,
        value: &Quantity,
    ) -> Result<(), AllocError>
        requires { AreReplyOptionsPrintable options.now }
    {
        let ((first, body), last) = match self.branch {
            Branch::Forward => ((End::Domain, Some(&function.forward)), End::Range),
            Branch::Inverse => ((End::Range, function.inverse.as_ref()), End::Domain),
        };
        if !self.put_test(evaluator, options, function, first, value)? {
            return Ok(());
        }
        let Some(body) = body else {
            return Ok(());
        };
        if let Some(result) = value_at(evaluator, body, value)? {
            self.put_test(evaluator, options, function, last, &result)?;
        }
        Ok(())
    }

    // Appends the test of one end, if the function has an interval there. Returns whether the evaluation continues.
    fn put_test<L: Ledger>(
        &mut self,
        evaluator: &mut Evaluator<L>,
        options: &Options,
        function: &FunctionDef,
        end: End,
        value: &Quantity,
    ) -> Result<bool, AllocError>
        requires { AreReplyOptionsPrintable options.now }
    {
        let unit = unit_value(evaluator, unit_at(function, end))?;
        if !conforms_to(value, unit.as_ref()) {
            return Ok(false);
        }
        let Some(span) = span_at(function, end) else {
            return Ok(true);
        };
        let interval = Interval { end, span };
        let test = end_test(evaluator.alloc, options, interval, unit.as_ref(), value)?;
        self.push_test(test)
    }

    // Appends a test if there is one. Returns whether there is one and its number is inside.
    fn push_test(&mut self, test: Option<EndTest>) -> Result<bool, AllocError> {
        let Some(test) = test else {
            return Ok(false);
        };
        let is_inside = test.is_inside;
        self.tests.push(test)?;
        Ok(is_inside)
    }
}

// Returns the value of a unit, if there is a unit and it has a value.
fn unit_value<L: Ledger>(
    evaluator: &mut Evaluator<L>,
    unit: Option<&Tree>,
) -> Result<Option<Quantity>, AllocError> {
    match unit {
        Some(unit) => evaluator.value_if_any(unit),
        None => Ok(None),
    }
}

// Returns whether a value conforms to a unit, or there is no unit.
fn conforms_to(value: &Quantity, unit: Option<&Quantity>) -> bool {
    match unit {
        Some(unit) => value.conforms(unit),
        None => true,
    }
}

// Returns the segment of a table, with its unit and its text, that contains the value of a call.
fn segment_of<L: Ledger>(
    evaluator: &mut Evaluator<L>,
    unit: &Tree,
    text: &[u8],
    branch: Branch,
    value: &Quantity,
) -> Result<Option<Segment>, AllocError> {
    match branch {
        Branch::Forward => segment_at(evaluator.alloc, text, &value.value()),
        Branch::Inverse => segment_of_result(evaluator, unit, text, value),
    }
}

// Returns the segment of a table whose results, numbers in the unit, contain a value.
fn segment_of_result<L: Ledger>(
    evaluator: &mut Evaluator<L>,
    unit: &Tree,
    text: &[u8],
    value: &Quantity,
) -> Result<Option<Segment>, AllocError> {
    let Some(unit) = evaluator.value_if_any(unit)? else {
        return Ok(None);
    };
    match value.value().div(&unit.value()) {
        Ok(y) if value.conforms(&unit) => segment_back(evaluator.alloc, text, &y),
        _ => Ok(None),
    }
}
