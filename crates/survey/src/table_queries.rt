//! Queries of a live table.

ghost use Rattle.std.specs.Prelude.{◌≡◌, ◌∷◌, [], IfOk};
ghost use Rattle.deck.specs.Tables as tables;
ghost use Rattle.expr_tree.specs.Trees.{syntax};
ghost use Rattle.expr_tree.specs.Words.{words_in};
ghost use Rattle.tree_eval.specs.Expansion.{called_eval_word};
ghost use Rattle.live_table.specs.TableView.{IsRightLiveView};
ghost use Rattle.reply.specs.Calls as call;
ghost use Rattle.survey.specs.Calls as calls;
ghost use Rattle.survey.specs.Checks as spec;

use def_entry::Key;
use expr_tree::{Quotient, Tree};
use frac128::read_numeral;
use live_table::{LiveTable, QueryFault};
use quantity::Quantity;
use std::alloc::{AllocError, Global};
use std::sync::ledger::Ledger;
use units_io::{Steps, Text};

/// Queries the names of a function. Returns their fault, if they have one.
pub(crate) fn ask_function<L: Ledger>(
    alloc: Global,
    table: &mut LiveTable,
    key: &Key,
    steps: &mut Steps<L>,
) -> Result<(), QueryFault>
    requires { IsRightLiveView table.old }
    ensures inquired { call.IsInquiryAnswered call.inquiry_identity
        (spec.names_finding (tables.table_of_deck table.old.deck) key.now)
        (call.inquiry_result result) table.old table.new steps.old steps.new }
    ensures deck { table.new.deck ≡ table.old.deck }
{
    let call = faulty_call(alloc, key.name.as_bytes())?;
    names_alone(table.value(alloc, &call, steps))
}

// Drops the value, or the fault of the value, from an answer. A fault of the names and running out of memory remain.
fn names_alone(answer: Result<Quantity, QueryFault>) -> Result<(), QueryFault>
    ensures { result ≡ calls.check_of_names_alone answer }
{
    match answer {
        Ok(_) | Err(QueryFault::Value(_)) => Ok(()),
        Err(fault) => Err(fault),
    }
}

// Builds a call whose operand has no value, so that the function is never applied.
fn faulty_call(alloc: Global, name: &[u8]) -> Result<Tree, AllocError>
    ensures { IfOk result (λ tree. words_in (syntax tree) ≡ called_eval_word name.now ∷ []) }
{
    let zero = read_numeral(b"0").unwrap();
    let quotient = Box::new(
        alloc,
        Quotient {
            top: zero,
            bottom: zero,
        },
    )?;
    let operand = Box::new(alloc, Tree::Bar(quotient))?;
    let name = Box::new(alloc, Text::from_bytes(alloc, name)?)?;
    Ok(Tree::Call(name, operand))
}
