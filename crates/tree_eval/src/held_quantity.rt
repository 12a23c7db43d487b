//! Quantities that are borrowed or owned.

ghost use Rattle.std.specs.Prelude.{◌≡◌, IfOk, Err, Ok, option_map};
ghost use Rattle.std.specs.Option.{option_copied};
ghost use Rattle.quantity.specs.Answers.{IsQuantityAnswer};
ghost use Rattle.quantity.specs.Products.{quantity_product};
ghost use Rattle.tree_eval.specs.Answers.{GivesValueOrFault, IsEvalResult, amount_of_held_value};
ghost use Rattle.tree_eval.specs.Steps.{ValueOrFault, negative_value, value_one};
ghost use Rattle.tree_eval.specs.Value.{argument_or_one};

use crate::eval_status::EvalStatus;
use crate::fault::EvalFault;
use quantity::{Quantity, QuantityFault};
use std::alloc::{AllocError, Global};
use std::mem;

/// A quantity that is borrowed from an environment, or one that a step has computed.
pub(crate) enum Held<'a> {
    Lent(&'a Quantity),
    Own(Quantity),
}

// Written by hand, so that code that drops a held quantity need not prove anything about the contents.
impl Drop for Held<'_> {
    fn drop(self) {
        match self {
            Held::Lent(_) => (),
            Held::Own(_) => (),
        }
    }
}

impl<'a> Held<'a> {
    // The number 1. It is the placeholder in nested calls until a value is stored.
    pub(crate) fn unity(alloc: Global) -> Held<'a>
        ensures { amount_of_held_value result ≡ value_one }
    {
        Held::Own(Quantity::unity(alloc))
    }

    // Returns a place on the heap, with the number 1. In nested calls a place in each stack frame takes too much stack.
    #[inline(never)]
    pub(crate) fn new_place(alloc: Global) -> Result<Box<Held<'a>>, AllocError> {
        Ok(Box::new(alloc, Held::unity(alloc))?)
    }

    // Takes the quantity out and leaves 1 in its place.
    pub(crate) fn take(&mut self, alloc: Global) -> Held<'a>
        ensures { result ≡ self.old }
    {
        mem::replace(self, Held::unity(alloc))
    }

    // Stores the quantity of a result in place of this one.
    pub(crate) fn store_value(&mut self, value: Result<Quantity, EvalFault>) -> EvalStatus
        ensures { (expected : ValueOrFault) → IsEvalResult value expected
            → GivesValueOrFault (λ _. amount_of_held_value self.new) result expected }
    {
        *self = Held::Own(value?);
        EvalStatus::success()
    }

    // Negates the quantity in place.
    #[inline(never)]
    pub(crate) fn negate(&mut self, alloc: Global) -> EvalStatus
        ensures { GivesValueOrFault (λ _. amount_of_held_value self.new) result
            (Ok (negative_value (amount_of_held_value self.old))) }
    {
        let q = self.take(alloc).own(alloc)?;
        *self = Held::Own(q.into_negative());
        EvalStatus::success()
    }

    // Borrows the quantity.
    pub(crate) fn get(&self) -> &Quantity
        ensures { result.now ≡ amount_of_held_value self.now }
    {
        match self {
            Held::Lent(q) => q,
            Held::Own(q) => q,
        }
    }

    // Returns a quantity times this one. The product reuses the names of an owned factor if it can.
    pub(crate) fn multiply(self, alloc: Global, left: Quantity) -> Result<Quantity, QuantityFault>
        ensures { IsQuantityAnswer result (quantity_product left (amount_of_held_value self.entry)) }
    {
        match self {
            Held::Lent(right) => left.times(alloc, right),
            Held::Own(right) => left.times_all(alloc, right),
        }
    }

    // Returns the quantity, copied if it is borrowed.
    pub(crate) fn own(self, alloc: Global) -> Result<Quantity, AllocError>
        ensures { IfOk result (λ q. q ≡ amount_of_held_value self.entry) }
    {
        match self {
            Held::Lent(q) => q.copy(alloc),
            Held::Own(q) => Ok(q),
        }
    }
}

// Borrows the quantity, if there is one.
pub(crate) fn lend_quantity<'b>(held: &'b Option<Held<'_>>) -> Option<&'b Quantity>
    ensures { option_copied result ≡ option_map amount_of_held_value held.now }
{
    match held {
        Some(held) => Some(held.get()),
        None => None,
    }
}

// Drops a place, and returns the fault of the evaluation that should have filled it.
#[inline(never)]
pub(crate) fn drop_place(_place: Box<Held<'_>>, fault: EvalFault) -> EvalStatus
    ensures { result ≡ Err fault }
{
    EvalStatus::of_result(Err(fault))
}

// Stores the argument, or 1 if none is given.
#[inline(never)]
pub(crate) fn put_argument<'a>(alloc: Global, arg: Option<&'a Quantity>, held: &mut Held<'a>)
    ensures { amount_of_held_value held.new ≡ argument_or_one (option_copied arg.entry) }
{
    *held = match arg {
        Some(arg) => Held::Lent(arg),
        None => Held::unity(alloc),
    };
}
