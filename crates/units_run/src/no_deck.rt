//! Runs over a file that gives no deck.
ghost use Rattle.std.specs.Prelude.{◌≡◌, ℕ, Bool, true, IfOk, IsErrOf};
ghost use Rattle.units_io.specs.FileMap.{FileMap};
ghost use Rattle.deck.specs.FileLoads.{MayDeckLoadFailWith};
ghost use Rattle.units_run.specs.Definitions as spec;
ghost use Rattle.units_run.specs.ProgramPlans.{IsPlanned, IsPossiblePlan};
ghost use Rattle.units_run.specs.Plans.{complaint_plan};

use crate::halt::Halt;
use crate::plan::Plan;
use crate::status::Status;
use deck::DeckFault;
use std::alloc::{AllocError, Global};

/// Returns the plan that writes to `err` why the file of this name gives no deck. Returns an error if a fetch failed or
/// memory ran out.
pub(crate) fn no_deck_plan(alloc: Global, fault: &DeckFault, name: &[u8]) -> Result<Plan, Halt>
    ensures if_known { (m : FileMap) (n : ℕ) →
        IsPlanned (complaint_plan (spec.no_deck_run_line fault.now name.now) Status.NoFile) m result n n }
    ensures kind { (session column : Bool) → IfOk result (IsPossiblePlan true true session column) }
    ensures fault { IfOk result (λ plan. MayDeckLoadFailWith fault.now → ⊥) }
    ensures cause { IsErrOf result Halt.ReadFault → fault.now ≡ DeckFault.ReadFailed }
{
    match fault {
        DeckFault::ReadFailed => Err(Halt::ReadFault),
        DeckFault::OutOfMemory => Err(Halt::NoMemory),
        _ => Ok(no_deck_complaint(alloc, fault, name)?),
    }
}

// Returns the plan with the line for `err`.
fn no_deck_complaint(alloc: Global, fault: &DeckFault, name: &[u8]) -> Result<Plan, AllocError>
    ensures if_known { (m : FileMap) (n : ℕ) →
        IsPlanned (complaint_plan (spec.no_deck_run_line fault.now name.now) Status.NoFile) m result n n }
    ensures kind { (session column : Bool) → IfOk result (IsPossiblePlan true true session column) }
{
    let mut text = Vec::from_slice(alloc, no_deck(fault))?;
    text.extend_from_slice(name)?;
    text.push(b'\n')?;
    Plan::complaint(alloc, &text, Status::NoFile)
}

// Returns the reason why there is no deck.
fn no_deck(fault: &DeckFault) -> &'static [u8]
    ensures { result.now ≡ spec.no_deck_run_reason fault.now }
{
    match fault {
        DeckFault::TooLong => b"units: file too long: ".as_slice(),
        DeckFault::DeckFull => b"units: deck full: ".as_slice(),
        _ => b"units: no file: ".as_slice(),
    }
}
