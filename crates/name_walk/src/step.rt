//! The steps by which words lead to names.

ghost use Rattle.std.specs.Prelude.{◌≡◌, ◌∷◌, [], ◌++◌, IfOk, OnOk, OnErr};

use smallvec::SmallVec;
use std::alloc::{AllocError, Global};
use std::default::MadeWith;
use std::marker::Model;

/// One target of a word. A word with two targets has two steps, in the order of the targets.
#[derive(Clone, Copy, Drop)]
pub enum Step {
    /// The word leads nowhere. The number is the one that the caller gave the word.
    Nowhere(usize),
    /// The word leads to the name with this number.
    To(usize),
}

// A small vector fills its unused places with this value.
impl MadeWith<Global> for Step {
    fn made_with(_alloc: Global) -> Step {
        Step::Nowhere(0)
    }
}

/// The steps of a name. The steps of a single word, which most names have, are stored inline, without an allocation.
#[derive(Drop)]
pub struct StepList {
    items: SmallVec<Step, 2>,
}

impl Model for StepList {
    ghost use Rattle.std.specs.Prelude.{List};
    ghost use Rattle.name_walk.specs.declared.step.Step.{Step};

    ghost Value = { List Step };

    ghost view = { λ steps. steps.items.items };
}

impl StepList {
    /// Returns an empty list. It allocates no memory.
    pub fn new(alloc: Global) -> StepList
        ensures { result ≡ [] }
    {
        StepList {
            items: SmallVec::new(alloc),
        }
    }

    /// Returns an empty list with room for `len` steps.
    pub fn with_capacity(alloc: Global, len: usize) -> Result<StepList, AllocError>
        ensures { IfOk result (λ steps. steps ≡ []) }
    {
        let items = SmallVec::with_capacity(alloc, len)?;
        Ok(StepList { items })
    }

    /// Appends a step. On an error nothing changes.
    pub fn push(&mut self, step: Step) -> Result<(), AllocError>
        ensures ok { OnOk result (self.new ≡ self.old ++ step ∷ []) }
        ensures err { OnErr result (self.new ≡ self.old) }
    {
        self.items.push(step)?;
        Ok(())
    }

    /// Borrows the steps, in order.
    pub fn as_slice(&self) -> &[Step]
        ensures { result.now ≡ self.now }
    {
        self.items.as_slice()
    }
}
