//! From the words to a plan.
ghost use Rattle.std.specs.Prelude.{◌≡◌, ◌≤◌, ◌&&◌, ◌||◌, IfOk, IsErrOf, OnOk, Some, true, false, is_some, not};
ghost use Rattle.units_io.specs.FileMap.{FileMap};
ghost use Rattle.units_io.specs.Faults.{HasIoCountRisen};
ghost use Rattle.command_line.specs.AcceptedWords.{are_command_words_accepted};
ghost use Rattle.command_line.specs.Fields.{command_line_of};
ghost use Rattle.session.specs.KnownContents.{IsSessionValueIfKnown};
ghost use Rattle.session.specs.Trials.{trial_session};
ghost use Rattle.units_run.specs.Needs.{is_run_of_column, is_run_of_session, run_converts_column, run_loads_file};
ghost use Rattle.units_run.specs.Needs.{run_needs_definitions, run_needs_files, run_opens_session};
ghost use Rattle.units_run.specs.Options as options;
ghost use Rattle.units_run.specs.ProgramPlans.{IsPlanned, IsPossiblePlan};
ghost use Rattle.units_run.specs.Settings as settings;
ghost use Rattle.units_run.specs.Work as spec;

use crate::definitions::{built_in_deck, load_deck, settings_of};
use crate::halt::Halt;
use crate::no_deck::no_deck_plan;
use crate::options::options_of;
use crate::plan::Plan;
use crate::status::Status;
use crate::work::work;
use command_line::{CommandLine, WordsFault, read_words, usage_text};
use deck::Settings;
use session::{OutputBuffers, run_trial};
use std::alloc::{AllocError, Global};
use std::sync::ledger::Ledger;
use units_io::{Files, Steps, Text, Vars};

/// Returns the plan that these words and variables lead to over these files.
pub(crate) fn make_plan<F: Files, L: Ledger>(
    alloc: Global,
    words: &[Text],
    vars: &Vars,
    files: &mut F,
    steps: &mut Steps<L>,
) -> Result<Plan, Halt>
    ensures if_known { (m : FileMap) → IsSessionValueIfKnown (run_needs_definitions words.now) (F.files files.old) m →
        IsPlanned (spec.plan_of words.now vars.now m) m result steps.old steps.new }
    ensures kind { IfOk result
        (IsPossiblePlan (are_command_words_accepted words.now) (run_loads_file (command_line_of words.now))
        (run_opens_session words.now) (run_converts_column words.now)) }
    ensures calm { OnOk result (F.faults files.new ≡ F.faults files.old) }
    ensures cause { IsErrOf result Halt.ReadFault → HasIoCountRisen (F.faults files.old) (F.faults files.new) }
    ensures kept { F.files files.new ≡ F.files files.old }
    ensures stores { F.store_faults files.new ≡ F.store_faults files.old }
    ensures unasked { run_needs_files words.now ≡ false → files.new ≡ files.old }
    ensures unloaded { run_needs_definitions words.now ≡ false → files.new ≡ files.old }
{
    match read_words(alloc, words) {
        Ok(line) => line_plan(alloc, &line, vars, files, steps),
        Err(WordsFault::Usage) => Ok(Plan::complaint(alloc, usage_text(), Status::Usage)?),
        Err(WordsFault::OutOfMemory) => Err(Halt::NoMemory),
    }
}

// Returns the plan of a command line: a trial, or work on a deck.
fn line_plan<F: Files, L: Ledger>(
    alloc: Global,
    line: &CommandLine,
    vars: &Vars,
    files: &mut F,
    steps: &mut Steps<L>,
) -> Result<Plan, Halt>
    requires digits { options.HasValidRunDigits line.now }
    requires rounds { options.HasValidRunRounds line.now }
    requires column { options.HasValidRunColumn line.now }
    ensures if_known { (m : FileMap) → IsSessionValueIfKnown (run_loads_file line.now) (F.files files.old) m →
        IsPlanned (spec.line_plan line.now vars.now m) m result steps.old steps.new }
    ensures kind { IfOk result
        (IsPossiblePlan true (run_loads_file line.now) (is_run_of_session line.now) (is_run_of_column line.now)) }
    ensures calm { OnOk result (F.faults files.new ≡ F.faults files.old) }
    ensures cause { IsErrOf result Halt.ReadFault → HasIoCountRisen (F.faults files.old) (F.faults files.new) }
    ensures kept { F.files files.new ≡ F.files files.old }
    ensures stores { F.store_faults files.new ≡ F.store_faults files.old }
    ensures unasked { run_loads_file line.now ≡ false → files.new ≡ files.old }
{
    let settings = settings_of(alloc, line, vars)?;
    match line.trial {
        Some(rounds) => Ok(trial_plan(alloc, line, settings, rounds, steps)?),
        None => deck_plan(alloc, line, settings, files, steps),
    }
}

// Returns the plan with the summary of a trial. The only error is running out of memory.
fn trial_plan<L: Ledger>(
    alloc: Global,
    line: &CommandLine,
    settings: Settings,
    rounds: u16,
    steps: &mut Steps<L>,
) -> Result<Plan, AllocError>
    requires digits { options.HasValidRunDigits line.now }
    requires some { 1 ≤ rounds }
    requires few { rounds ≤ 20000 }
    ensures if_known { (m : FileMap) →
        IsPlanned (spec.trial_plan (trial_session (options.run_options line.now) settings rounds)) m result steps.old
        steps.new }
    ensures kind { IfOk result (IsPossiblePlan true false false false) }
{
    let text = run_trial(alloc, options_of(line), settings, rounds, steps)?;
    let buffers = OutputBuffers {
        out: text.into_bytes(),
        err: Vec::new(alloc),
    };
    Ok(Plan::Whole(buffers, Status::Done))
}

// Returns the plan of a command line over its definition file, or over the built-in text if it names none.
fn deck_plan<F: Files, L: Ledger>(
    alloc: Global,
    line: &CommandLine,
    settings: Settings,
    files: &mut F,
    steps: &mut Steps<L>,
) -> Result<Plan, Halt>
    requires digits { options.HasValidRunDigits line.now }
    requires column { options.HasValidRunColumn line.now }
    ensures if_known { (m : FileMap) → IsSessionValueIfKnown (is_some line.now.file) (F.files files.old) m →
        IsPlanned (spec.deck_plan line.now.file line.now settings m) m result steps.old steps.new }
    ensures kind { IfOk result
        (IsPossiblePlan true (is_some line.now.file) (not (is_some line.now.from || line.now.check))
        (is_some line.now.from && is_some line.now.column)) }
    ensures calm { OnOk result (F.faults files.new ≡ F.faults files.old) }
    ensures cause { IsErrOf result Halt.ReadFault → HasIoCountRisen (F.faults files.old) (F.faults files.new) }
    ensures kept { F.files files.new ≡ F.files files.old }
    ensures stores { F.store_faults files.new ≡ F.store_faults files.old }
    ensures unasked { is_some line.now.file ≡ false → files.new ≡ files.old }
{
    let Some(name) = &line.file else {
        let deck = built_in_deck(alloc, settings)?;
        return Ok(work(alloc, line, deck, steps)?);
    };
    match load_deck(alloc, files, name.as_bytes(), settings) {
        Ok(deck) => Ok(work(alloc, line, deck, steps)?),
        Err(fault) => no_deck_plan(alloc, &fault, name.as_bytes()),
    }
}
