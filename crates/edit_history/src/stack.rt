//! Stacks of steps: the last step of the list is made first.

ghost use Rattle.std.specs.Prelude.{◌≡◌, ◌∷◌, ◌+◌, ◌<◌, ◌≤◌, OnOk, reverse, vec_capacity, vec_len};

use crate::step::Step;
use std::alloc::AllocError;

/// Makes room for one more step. The list grows by an eighth, so that little of its memory is unused. The only error is
/// running out of memory.
pub fn make_room(steps: &mut Vec<Step>) -> Result<(), AllocError>
    ensures items { steps.new.items ≡ steps.old.items }
    ensures room { OnOk result (vec_len steps.new + 1 ≤ vec_capacity steps.new) }
{
    if steps.len() < steps.capacity() {
        return Ok(());
    }
    steps.reserve_exact(steps.len() / 8 + 16)
}

/// Pushes a step onto a list that has room for it.
pub fn put(steps: &mut Vec<Step>, step: Step)
    requires { vec_len steps.old + 1 ≤ vec_capacity steps.old }
    ensures { reverse steps.new.items ≡ step ∷ reverse steps.old.items }
{
    let _ = steps.push(step);
}

/// Pops the last step. Its room remains.
pub fn take(steps: &mut Vec<Step>) -> Step
    requires { 0 < vec_len steps.old }
    ensures step { reverse steps.old.items ≡ result ∷ reverse steps.new.items }
    ensures room { vec_len steps.new + 1 ≤ vec_capacity steps.new }
{
    let Some(step) = steps.pop() else {
        unreachable!()
    };
    step
}
