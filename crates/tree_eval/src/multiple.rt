//! A number and a word side by side, the form of most definitions. It has a shorter path than a general chain.

ghost use Rattle.std.specs.Prelude.{◌≡◌, [], IfSome};
ghost use Rattle.expr_tree.specs.Trees.{syntax, syntax_of_trees};
ghost use Rattle.expr_tree.specs.Words.{words_in};
ghost use Rattle.tree_eval.specs.Answers.{GivesValueOrFault, IsEvalResult, amount_of_held_value};
ghost use Rattle.tree_eval.specs.Multiples as spec;
ghost use Rattle.tree_eval.specs.Operands.{value_with_operand};
ghost use Rattle.tree_eval.specs.Steps.{operand_step_value};
ghost use Rattle.tree_eval.specs.WordValues.{IsUsableEvalMeaning, reported_word_value};

use crate::answer::{amount_answer, number_answer};
use crate::env::Env;
use crate::eval_status::EvalStatus;
use crate::fault::EvalFault;
use crate::held_quantity::Held;
use crate::meaning::Meaning;
use crate::numeral::quotient;
use crate::outcome::Outcome;
use crate::step::Step;
use crate::word::join_word;
use expr_tree::{Quotient, Tree, Trees, view_law};
use frac128::{Frac, FracFault, Numeral};
use quantity::Quantity;
use std::alloc::Global;

/// A number that a tree states literally.
#[derive(Clone, Copy)]
pub(crate) enum Factor<'t> {
    Numeral(&'t Numeral),
    Bar(&'t Quotient),
}

impl Factor<'_> {
    // Returns the number.
    fn value(self) -> Result<Frac, FracFault>
        ensures { result ≡ spec.factor_number_value self.entry }
    {
        match self {
            Factor::Numeral(x) => x.value(),
            Factor::Bar(bar) => quotient(&bar.top, &bar.bottom),
        }
    }
}

// Returns the number before a word, if the two are the only members. Not inlined, so that its stack frame is gone
// before further calls nest.
#[inline(never)]
pub(crate) fn factor_of_word(trees: &Trees) -> Option<Factor<'_>>
    ensures { IfSome result (λ factor. spec.IsOperandMultiple (syntax_of_trees trees.now)
        (spec.factor_number_value factor)) }
{
    view_law();
    if trees.len() != 2 {
        return None;
    }
    match trees.get(1).unwrap() {
        Tree::Word(_) => number_of(trees.get(0).unwrap()),
        _ => None,
    }
}

// Whether the only members are a number and a word. Code that nests asks this first, since its stack frame would have to
// have room for the factor.
#[inline(never)]
pub(crate) fn is_multiple(trees: &Trees) -> bool {
    factor_of_word(trees).is_some()
}

// Returns the number that a tree states literally, if it does.
fn number_of(tree: &Tree) -> Option<Factor<'_>>
    ensures says { IfSome result (λ factor. spec.HasNumberValue (syntax tree.now) (spec.factor_number_value factor)) }
    ensures wordless { IfSome result (λ _. words_in (syntax tree.now) ≡ []) }
{
    view_law();
    match tree {
        Tree::Number(x) => Some(Factor::Numeral(x)),
        Tree::Bar(quotient) => Some(Factor::Bar(quotient)),
        _ => None,
    }
}

// Stores the value of a number times a single word.
#[inline(never)]
pub(crate) fn put_multiple<'a, E: Env>(
    alloc: Global,
    env: &'a E,
    factor: Factor<'_>,
    meaning: Meaning<'a>,
    held: &mut Held<'a>,
) -> EvalStatus
    requires { IsUsableEvalMeaning (E.has env.now) meaning }
    ensures { GivesValueOrFault (λ _. amount_of_held_value held.new) result
        (spec.word_multiple_value (spec.factor_number_value factor.entry)
        (reported_word_value (E.callee env.now) meaning.entry)) }
{
    let number = number_answer(alloc, factor.value())?;
    held.store_value(multiple(alloc, env, number, meaning))
}

// Returns a number times a single word. The value of a name is used without a copy.
fn multiple<'a, E: Env>(
    alloc: Global,
    env: &'a E,
    number: Quantity,
    meaning: Meaning<'a>,
) -> Result<Quantity, EvalFault>
    requires { IsUsableEvalMeaning (E.has env.now) meaning }
    ensures { IsEvalResult result
        (value_with_operand Step.Multiply number (reported_word_value (E.callee env.now) meaning.entry)) }
{
    match meaning {
        Meaning::One(Outcome::Value(q)) => product(alloc, number, q),
        _ => join_word(alloc, env, Held::Own(number), Step::Multiply, meaning),
    }
}

fn product(alloc: Global, number: Quantity, q: &Quantity) -> Result<Quantity, EvalFault>
    ensures { IsEvalResult result (operand_step_value Step.Multiply number q.now) }
{
    amount_answer(alloc, number.times(alloc, q))
}
