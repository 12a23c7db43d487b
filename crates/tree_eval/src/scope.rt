//! Evaluation of expressions. Calls nest as deep as an expression and the functions that it calls, up to some thousand
//! parentheses, and so does the stack. So each call stores its value in a place of its caller, which is on the heap, and
//! returns a status that fits in two registers; code that needs much stack is in separate functions, which return before
//! further calls nest; and the functions that only choose what to call are inlined.

ghost use Rattle.std.specs.Prelude.{◌≡◌, ◌+◌, ◌++◌, ◌<◌, IfOk, OnOk, Some, length, map, slice_get};
ghost use Rattle.std.specs.Option.{option_copied};
ghost use Rattle.expr_tree.specs.declared.word_list.WordUse.{WordUse};
ghost use Rattle.expr_tree.specs.Trees.{syntax, syntax_of_trees};
ghost use Rattle.expr_tree.specs.Words.{words_in};
ghost use Rattle.tree_eval.specs.Answers.{GivesValueOrFault, IsEvalResult, amount_of_held_value};
ghost use Rattle.tree_eval.specs.Directions.{operand_expansion};
ghost use Rattle.tree_eval.specs.Environment.{IsEvalWordRun, IsReportedEvalMeaning};
ghost use Rattle.tree_eval.specs.Expansions as expanded;
ghost use Rattle.tree_eval.specs.Expansion.{eval_meaning_expansion, expand};
ghost use Rattle.tree_eval.specs.Operands.{chain, operand_by_side, operands_with_steps, value_with_operand};
ghost use Rattle.tree_eval.specs.Operands.{words_of_operands};
ghost use Rattle.tree_eval.specs.Value as spec;

use crate::direction::Direction;
use crate::env::Env;
use crate::eval_status::EvalStatus;
use crate::fault::EvalFault;
use crate::function::put_taken;
use crate::held_quantity::{Held, drop_place, put_argument};
use crate::holder::Holder;
use crate::meaning::Meaning;
use crate::multiple::{factor_of_word, is_multiple, put_multiple};
use crate::numeral::{put_bar, put_numeral};
use crate::operands::{Operand, Operands};
use crate::power::{take_power, take_root};
use crate::step::Step;
use crate::word::{put_word, take_word};
use expr_tree::{RootKind, Tree, Trees, view_law};
use quantity::Quantity;
use std::alloc::{AllocError, Global};

/// Returns the value of a tree, with `arg` as the argument. Fails with `Value` and the first fault from left to right:
/// a fault of a step on numbers, a sum of quantities that do not conform, an exponent that is not a number or is out of
/// range, a fault of a call or an inverse (see `apply`, `unapply`), or a function without an argument. Fails with
/// `OutOfMemory` if memory runs out.
pub fn eval<E: Env>(
    alloc: Global,
    env: &E,
    holder: Holder,
    tree: &Tree,
    arg: Option<&Quantity>,
) -> Result<Quantity, EvalFault>
    requires { E.words env.now holder ≡ words_in (syntax tree.now) }
    ensures { IsEvalResult result
        (spec.value (expand (E.means env.now) (syntax tree.now)) (option_copied arg.entry)) }
{
    Ok(evaluate_holder(alloc, env, holder, tree, arg)?.own(alloc)?)
}

// Returns the value of the tree of a holder, with `arg` as the argument.
#[cycle(eval)]
pub(crate) fn evaluate_holder<'a, E: Env>(
    alloc: Global,
    env: &'a E,
    holder: Holder,
    tree: &Tree,
    arg: Option<&'a Quantity>,
) -> Result<Held<'a>, EvalFault>
    requires { E.words env.now holder ≡ words_in (syntax tree.now) }
    ensures { GivesValueOrFault amount_of_held_value result
        (spec.value (expand (E.means env.now) (syntax tree.now)) (option_copied arg.entry)) }
{
    let scope = Scope {
        alloc,
        env,
        holder,
        arg,
    };
    let mut place = 0;
    let mut held = Held::unity(alloc);
    scope.evaluate(tree, &mut place, &mut held)?;
    Ok(held)
}

/// The context of an expression.
#[derive(Drop)]
struct Scope<'a, E> {
    alloc: Global,
    env: &'a E,
    // The holder of the tree of the expression.
    holder: Holder,
    // The argument of the function whose expression this is.
    arg: Option<&'a Quantity>,
}

impl<'a, E: Env> Scope<'a, E> {
    // Stores the value of a tree whose first word is at `place`, and moves `place` past its last word.
    #[cycle(eval)]
    #[inline(always)]
    fn evaluate(&self, tree: &Tree, place: &mut usize, held: &mut Held<'a>) -> EvalStatus
        requires { IsEvalWordRun (E.words self.now.env.now self.now.holder) place.old (words_in (syntax tree.now)) }
        ensures value_or_fault { GivesValueOrFault (λ _. amount_of_held_value held.new) result (spec.value
            (expand (E.means self.now.env.now) (syntax tree.now)) (option_copied self.now.arg)) }
        ensures place { OnOk result (place.new ≡ place.old + length (words_in (syntax tree.now))) }
    {
        view_law();
        match tree {
            Tree::Number(x) => put_numeral(self.alloc, x, held),
            Tree::Bar(quotient) => put_bar(self.alloc, &quotient.top, &quotient.bottom, held),
            Tree::Argument => {
                put_argument(self.alloc, self.arg, held);
                EvalStatus::success()
            }
            Tree::Word(_) => self.word(place, held),
            Tree::Call(_, operand) => self.evaluate_use(Direction::Forward, operand, place, held),
            Tree::Inverse(_, operand) => self.evaluate_use(
                Direction::Inverse,
                operand,
                place,
                held,
            ),
            Tree::Group(operand) => self.group(operand, place, held),
            Tree::Root(kind, operand) => self.root(*kind, operand, place, held),
            Tree::Negate(operand) => self.evaluate_negative(operand, place, held),
            Tree::Power(base, exponent) => self.power(base, exponent, place, held),
            Tree::Product(factors) => self.chain(Operands::Product(factors), place, held),
            Tree::Sum(terms) => self.chain(Operands::Sum(terms), place, held),
            Tree::Juxtaposed(trees) if is_multiple(trees) => {
                self.evaluate_juxtaposition(trees, place, held)
            }
            Tree::Juxtaposed(trees) => self.chain(Operands::Juxtaposed(trees), place, held),
        }
    }

    // Stores the value of a tree in parentheses.
    #[cycle(eval)]
    #[inline(never)]
    fn group(&self, operand: &Tree, place: &mut usize, held: &mut Held<'a>) -> EvalStatus
        requires { IsEvalWordRun (E.words self.now.env.now self.now.holder) place.old (words_in (syntax operand.now)) }
        ensures value_or_fault { GivesValueOrFault (λ _. amount_of_held_value held.new) result (spec.value
            (expand (E.means self.now.env.now) (syntax operand.now)) (option_copied self.now.arg)) }
        ensures place { OnOk result (place.new ≡ place.old + length (words_in (syntax operand.now))) }
    {
        self.evaluate(operand, place, held)
    }

    // Stores the root of a tree.
    #[cycle(eval)]
    #[inline(never)]
    fn root(
        &self,
        kind: RootKind,
        operand: &Tree,
        place: &mut usize,
        held: &mut Held<'a>,
    ) -> EvalStatus
        requires { IsEvalWordRun (E.words self.now.env.now self.now.holder) place.old (words_in (syntax operand.now)) }
        ensures value_or_fault { GivesValueOrFault (λ _. amount_of_held_value held.new) result (spec.value
            (expanded.Root kind (expand (E.means self.now.env.now) (syntax operand.now)))
            (option_copied self.now.arg)) }
        ensures place { OnOk result (place.new ≡ place.old + length (words_in (syntax operand.now))) }
    {
        self.evaluate(operand, place, held)?;
        take_root(self.alloc, kind, held)
    }

    // Stores a tree with the opposite sign.
    #[cycle(eval)]
    #[inline(never)]
    fn evaluate_negative(
        &self,
        operand: &Tree,
        place: &mut usize,
        held: &mut Held<'a>,
    ) -> EvalStatus
        requires { IsEvalWordRun (E.words self.now.env.now self.now.holder) place.old (words_in (syntax operand.now)) }
        ensures value_or_fault { GivesValueOrFault (λ _. amount_of_held_value held.new) result (spec.value
            (expanded.Negated (expand (E.means self.now.env.now) (syntax operand.now))) (option_copied self.now.arg)) }
        ensures place { OnOk result (place.new ≡ place.old + length (words_in (syntax operand.now))) }
    {
        self.evaluate(operand, place, held)?;
        held.negate(self.alloc)
    }

    // Stores a power.
    #[cycle(eval)]
    #[inline(never)]
    fn power(
        &self,
        base: &Tree,
        exponent: &Tree,
        place: &mut usize,
        held: &mut Held<'a>,
    ) -> EvalStatus
        requires { IsEvalWordRun (E.words self.now.env.now self.now.holder) place.old
            (words_in (syntax base.now) ++ words_in (syntax exponent.now)) }
        ensures value_or_fault { GivesValueOrFault (λ _. amount_of_held_value held.new) result
            (spec.value (expanded.Power
            (expand (E.means self.now.env.now) (syntax base.now))
            (expand (E.means self.now.env.now) (syntax exponent.now))) (option_copied self.now.arg)) }
        ensures place { OnOk result (place.new ≡ place.old
            + length (words_in (syntax base.now) ++ words_in (syntax exponent.now))) }
    {
        self.evaluate(base, place, held)?;
        let mut exponent_held = Held::new_place(self.alloc)?;
        match self
            .evaluate(exponent, place, &mut exponent_held)
            .into_result()
        {
            Ok(()) => take_power(self.alloc, held, exponent_held),
            Err(fault) => drop_place(exponent_held, fault),
        }
    }

    // Stores the value of the single word at `place`.
    #[inline(never)]
    fn word(&self, place: &mut usize, held: &mut Held<'a>) -> EvalStatus
        requires { place.old < length (E.words self.now.env.now self.now.holder) }
        ensures value_or_fault { (u : WordUse) → slice_get (E.words self.now.env.now self.now.holder) place.old ≡ Some u
            → GivesValueOrFault (λ _. amount_of_held_value held.new) result
            (spec.value (eval_meaning_expansion (E.means self.now.env.now u)) (option_copied self.now.arg)) }
        ensures place { OnOk result (place.new ≡ place.old + 1) }
    {
        let meaning = self.next_meaning(place)?;
        put_word(self.alloc, self.env, meaning, held)
    }

    // Combines the running value with the single word at `place`.
    #[inline(never)]
    fn with_word(&self, step: Step, place: &mut usize, held: &mut Held<'a>) -> EvalStatus
        requires { place.old < length (E.words self.now.env.now self.now.holder) }
        ensures value_or_fault { (u : WordUse) → slice_get (E.words self.now.env.now self.now.holder) place.old ≡ Some u
            → GivesValueOrFault (λ _. amount_of_held_value held.new) result
            (value_with_operand step (amount_of_held_value held.old)
            (spec.value (eval_meaning_expansion (E.means self.now.env.now u)) (option_copied self.now.arg))) }
        ensures place { OnOk result (place.new ≡ place.old + 1) }
    {
        let meaning = self.next_meaning(place)?;
        take_word(self.alloc, self.env, held, step, meaning)
    }

    // Returns the meaning of the word at `place`, and moves `place` past it. The only error is lack of memory: no
    // memory holds more words than `usize` counts.
    #[inline(never)]
    fn next_meaning(&self, place: &mut usize) -> Result<Meaning<'a>, AllocError>
        requires { place.old < length (E.words self.now.env.now self.now.holder) }
        ensures reports { IfOk result (λ meaning. (u : WordUse)
            → slice_get (E.words self.now.env.now self.now.holder) place.old ≡ Some u
            → IsReportedEvalMeaning (E.has self.now.env.now) (E.callee self.now.env.now)
            (E.means self.now.env.now u) meaning) }
        ensures place { OnOk result (place.new ≡ place.old + 1) }
    {
        let next = place.checked_add(1).ok_or(AllocError)?;
        let meaning = self.env.meaning(self.holder, *place);
        *place = next;
        Ok(meaning)
    }

    // Evaluates the word at `place` and the operand after it, with or without a `~` before the word.
    #[cycle(eval)]
    #[inline(never)]
    fn evaluate_use(
        &self,
        direction: Direction,
        operand: &Tree,
        place: &mut usize,
        held: &mut Held<'a>,
    ) -> EvalStatus
        requires within { place.old < length (E.words self.now.env.now self.now.holder) }
        requires stand { IsEvalWordRun (E.words self.now.env.now self.now.holder) (place.old + 1)
            (words_in (syntax operand.now)) }
        ensures value_or_fault { (u : WordUse) → slice_get (E.words self.now.env.now self.now.holder) place.old ≡ Some u
            → GivesValueOrFault (λ _. amount_of_held_value held.new) result (spec.value (operand_expansion direction
            (E.means self.now.env.now u) (expand (E.means self.now.env.now) (syntax operand.now)))
            (option_copied self.now.arg)) }
        ensures place { OnOk result (place.new ≡ place.old + 1 + length (words_in (syntax operand.now))) }
    {
        let meaning = self.next_meaning(place)?;
        if let Meaning::Function(id) = meaning {
            self.evaluate(operand, place, held)?;
            return put_taken(self.alloc, self.env, direction, id, held);
        }
        put_word(self.alloc, self.env, meaning, held)?;
        let factor = Operand {
            step: Step::Multiply,
            tree: operand,
        };
        self.join_member(factor, place, held)
    }

    // Evaluates operands side by side.
    #[cycle(eval)]
    #[inline(never)]
    fn evaluate_juxtaposition(
        &self,
        trees: &Trees,
        place: &mut usize,
        held: &mut Held<'a>,
    ) -> EvalStatus
        requires { IsEvalWordRun (E.words self.now.env.now self.now.holder) place.old
            (words_of_operands (map operand_by_side (syntax_of_trees trees.now))) }
        ensures value_or_fault { GivesValueOrFault (λ _. amount_of_held_value held.new) result (spec.value
            (chain (E.means self.now.env.now) (map operand_by_side (syntax_of_trees trees.now)))
            (option_copied self.now.arg)) }
        ensures place { OnOk result (place.new ≡ place.old
            + length (words_of_operands (map operand_by_side (syntax_of_trees trees.now)))) }
    {
        match factor_of_word(trees) {
            Some(factor) => {
                let meaning = self.next_meaning(place)?;
                put_multiple(self.alloc, self.env, factor, meaning, held)
            }
            None => self.chain(Operands::Juxtaposed(trees), place, held),
        }
    }

    // Evaluates the members of a chain.
    #[cycle(eval)]
    #[inline(never)]
    fn chain(&self, operands: Operands<'_>, place: &mut usize, held: &mut Held<'a>) -> EvalStatus
        requires { IsEvalWordRun (E.words self.now.env.now self.now.holder) place.old
            (words_of_operands (operands_with_steps operands)) }
        ensures value_or_fault { GivesValueOrFault (λ _. amount_of_held_value held.new) result (spec.value
            (chain (E.means self.now.env.now) (operands_with_steps operands.entry)) (option_copied self.now.arg)) }
        ensures place { OnOk result
            (place.new ≡ place.old + length (words_of_operands (operands_with_steps operands.entry))) }
    {
        if operands.len() == 0 {
            put_argument(self.alloc, None, held);
            return EvalStatus::success();
        }
        self.evaluate(operands.get(0).tree, place, held)?;
        for i in 1..operands.len() {
            self.with_member(operands.get(i), place, held)?;
        }
        EvalStatus::success()
    }

    // Combines the running value with one more member.
    #[cycle(eval)]
    #[inline(always)]
    fn with_member(
        &self,
        operand: Operand<'_>,
        place: &mut usize,
        held: &mut Held<'a>,
    ) -> EvalStatus
        requires { IsEvalWordRun (E.words self.now.env.now self.now.holder) place.old
            (words_in (syntax operand.tree.now)) }
        ensures value_or_fault { GivesValueOrFault (λ _. amount_of_held_value held.new) result
            (value_with_operand operand.entry.step (amount_of_held_value held.old)
            (spec.value (expand (E.means self.now.env.now) (syntax operand.entry.tree.now))
            (option_copied self.now.arg))) }
        ensures place { OnOk result (place.new ≡ place.old + length (words_in (syntax operand.entry.tree.now))) }
    {
        view_law();
        match operand.tree {
            Tree::Number(x) => operand.step.take_numeral(self.alloc, held, x),
            Tree::Word(_) => self.with_word(operand.step, place, held),
            _ => self.join_member(operand, place, held),
        }
    }

    // Combines the running value with one more member, which is evaluated into a place of its own.
    #[cycle(eval)]
    #[inline(always)]
    fn join_member(
        &self,
        operand: Operand<'_>,
        place: &mut usize,
        held: &mut Held<'a>,
    ) -> EvalStatus
        requires { IsEvalWordRun (E.words self.now.env.now self.now.holder) place.old
            (words_in (syntax operand.tree.now)) }
        ensures value_or_fault { GivesValueOrFault (λ _. amount_of_held_value held.new) result
            (value_with_operand operand.entry.step (amount_of_held_value held.old)
            (spec.value (expand (E.means self.now.env.now) (syntax operand.entry.tree.now))
            (option_copied self.now.arg))) }
        ensures place { OnOk result (place.new ≡ place.old + length (words_in (syntax operand.entry.tree.now))) }
    {
        let mut member = Held::new_place(self.alloc)?;
        match self
            .evaluate(operand.tree, place, &mut member)
            .into_result()
        {
            Ok(()) => operand.step.take_member(self.alloc, held, member),
            Err(fault) => drop_place(member, fault),
        }
    }
}
