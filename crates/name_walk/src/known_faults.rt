//! The faults of names that are known to have one.

ghost use Rattle.std.specs.Prelude.{◌≡◌, ◌∷◌, [], ◌++◌, Bool, List, ℕ, Some, IfOk, slice_get};
ghost use Rattle.name_walk.specs.Faults.{steps_fault_after_path};
ghost use Rattle.name_walk.specs.Nets.{IsConsistentGraph};
ghost use Rattle.name_walk.specs.Rings.{IsFaultyWalkWay, IsWalkFaultRing};
ghost use Rattle.name_walk.specs.Steps.{Graph};
ghost use Rattle.name_walk.specs.Trails.{AreWalkFindings, AreWalkTrails, GoesByFaultyStep, IsFaultyInWalk};
ghost use Rattle.name_walk.specs.Walks.{walk_fault_view};
ghost use Rattle.name_walk.specs.declared.step.Step.TheVariants as steps;

use crate::fault::Fault;
use crate::step::Step;
use crate::trail::FaultyStep;
use std::alloc::{AllocError, Global};

// Returns the fault of a name that is known to have one. The only error is running out of memory.
pub(crate) fn name_fault(
    alloc: Global,
    faults: &[Option<FaultyStep>],
    name: usize,
) -> Result<Fault, AllocError>
    requires trails { AreWalkTrails faults.now }
    requires faulty { IsFaultyInWalk faults.now name }
    ensures { IfOk result (λ f. (g : Graph) (s : List Bool) (sound : List ℕ) → IsConsistentGraph g s
        → AreWalkFindings g s sound faults.now → steps_fault_after_path g [] (steps.To name ∷ [])
        ≡ Some (walk_fault_view f)) }
{
    let end = known_step(faults, name).end;
    match known_step(faults, end).step {
        Step::Nowhere(word) => Ok(Fault::DeadEnd(word, Some(end))),
        Step::To(first) => {
            let names = ring(alloc, faults, end, first)?;
            Ok(Fault::Cycle(names))
        }
    }
}

// Returns the names of a ring, from `end` on, followed by `end` again. The step of `end` leads to `first`.
fn ring(
    alloc: Global,
    faults: &[Option<FaultyStep>],
    end: usize,
    first: usize,
) -> Result<Vec<usize>, AllocError>
    requires ring { (rest : List ℕ) × IsWalkFaultRing faults.now end first rest }
    ensures names { IfOk result (λ names. (rest : List ℕ) × IsFaultyWalkWay faults.now end first rest
        × (names.items ≡ (end ∷ rest) ++ end ∷ [])) }
{
    let mut names = Vec::new(alloc);
    names.push(end)?;
    let mut here = first;
    while here != end {
        names.push(here)?;
        here = next(faults, here);
    }
    names.push(end)?;
    Ok(names)
}

// Returns the name to which the faulty step of `name` leads.
fn next(faults: &[Option<FaultyStep>], name: usize) -> usize
    requires { (m : ℕ) × GoesByFaultyStep faults.now name (steps.To m) }
    ensures { GoesByFaultyStep faults.now name (steps.To result) }
{
    match known_step(faults, name).step {
        Step::To(next) => next,
        Step::Nowhere(_) => name,
    }
}

// Returns the faulty step of a name that is known to have a fault.
fn known_step(faults: &[Option<FaultyStep>], name: usize) -> FaultyStep
    requires { IsFaultyInWalk faults.now name }
    ensures { slice_get faults.now name ≡ Some (Some result) }
{
    match faults[name] {
        Some(faulty) => faulty,
        None => FaultyStep {
            step: Step::Nowhere(0),
            end: name,
        },
    }
}
