//! Numbered names and their steps.

ghost use Rattle.std.specs.Prelude.{◌≡◌, ◌+◌, ◌^◌, ◌<◌, IfSome, length, slice_get};
ghost use Rattle.std.specs.Option.{option_copied};
ghost use Rattle.name_walk.specs.Steps.{graph_steps};

use crate::step::{Step, StepList};

/// Numbered names, borrowed from their owner.
#[derive(Clone, Copy)]
pub struct WalkGraph<'a> {
    /// The steps of each name, in the order of its words.
    pub steps: &'a [StepList],
    /// Whether each name is settled, that is, known to its owner to be closed.
    pub settled: &'a [bool],
}

impl<'a> WalkGraph<'a> {
    // Returns the step of `name` at `place`, or `None` if the name has no step there.
    pub(crate) fn step(&self, name: usize, place: usize) -> Option<Step>
        requires { name < length self.now.steps.now }
        ensures step { result ≡ slice_get (graph_steps self.now.steps.now name) place }
        ensures few { IfSome result (λ _. place + 1 < 2 ^ 64) }
    {
        self.steps[name].as_slice().get(place).copied()
    }
}
