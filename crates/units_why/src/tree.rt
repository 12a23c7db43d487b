//! The tree of an expression.

ghost use Rattle.reply.specs.Options.{AreReplyOptionsPrintable};

use crate::evaluator::Evaluator;
use crate::fault_step::FaultStep;
use crate::open_calls::OpenCalls;
use crate::outcome::step_of_tree;
use expr_tree::{Tree, parse_expr};
use reply::Options;
use std::alloc::AllocError;
use std::sync::ledger::Ledger;
use value_sources::Walk;

/// The tree of an expression.
#[derive(Drop)]
pub(crate) struct RowTree {
    /// The walk before its first row, if the text is an expression.
    pub(crate) walk: Option<Walk>,
    /// The calls of the expression.
    pub(crate) calls: OpenCalls,
    /// Whether the expression has a value.
    pub(crate) has_value: bool,
    /// The step of the expression itself that has no value, if there is one.
    pub(crate) step: Option<FaultStep>,
}

/// Returns the tree of an expression. It has no row if the text is not an expression.
pub(crate) fn tree_of<L: Ledger>(
    evaluator: &mut Evaluator<L>,
    options: &Options,
    text: &[u8],
) -> Result<RowTree, AllocError>
    requires { AreReplyOptionsPrintable options.now }
{
    let alloc = evaluator.alloc;
    match parse_expr(alloc, text, None) {
        Ok(tree) => tree_with_rows(evaluator, options, &tree),
        Err(_) => Ok(RowTree {
            walk: None,
            calls: OpenCalls::none(alloc),
            has_value: false,
            step: None,
        }),
    }
}

fn tree_with_rows<L: Ledger>(
    evaluator: &mut Evaluator<L>,
    options: &Options,
    tree: &Tree,
) -> Result<RowTree, AllocError>
    requires { AreReplyOptionsPrintable options.now }
{
    let alloc = evaluator.alloc;
    let has_value = evaluator.value_if_any(tree)?.is_some();
    let step = if has_value {
        None
    } else {
        step_of_tree(evaluator, tree)?
    };
    Ok(RowTree {
        walk: Some(Walk::new(alloc, evaluator.deck(), tree)?),
        calls: OpenCalls::new(alloc, tree)?,
        has_value,
        step: FaultStep::of_if(alloc, options, step)?,
    })
}
