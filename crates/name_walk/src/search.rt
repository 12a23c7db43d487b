//! The search for the first fault below a query.

ghost use Rattle.std.specs.Prelude.{◌≡◌, ◌<◌, ◌≤◌, [], ℕ, length, IfOk};
ghost use Rattle.name_walk.specs.Findings.{AreWalkedFromQuery, CanClearWalk, IsConsistentWalkTrace};
ghost use Rattle.name_walk.specs.Findings.{IsFirstFaultyWalkStep};
ghost use Rattle.name_walk.specs.Nets.{IsConsistentGraph};
ghost use Rattle.name_walk.specs.Searches as spec;
ghost use Rattle.name_walk.specs.Steps.{StayInGraph};
ghost use Rattle.name_walk.specs.Traces.{IsIdleWalk};
ghost use Rattle.name_walk.specs.Trails.{AreWalkFindings, IsFaultyInWalk};

use crate::mark::Mark;
use crate::net::WalkGraph;
use crate::step::Step;
use crate::traces::{Frame, Traces};
use crate::trail::{Ending, FaultyStep, note_path};
use crate::visit::mark_of;
use std::alloc::{AllocError, Global};

// The result of looking at one step.
enum Finding {
    // It leads to a name that is settled or sound.
    Sound,
    // It leads to a name about which nothing is known.
    Open(usize),
    // It has a fault.
    Faulty(Ending),
}

// Classifies a step of `name`, which is the last name on the path.
fn step_finding(
    net: &WalkGraph,
    traces: &Traces,
    faults: &[Option<FaultyStep>],
    name: usize,
    step: Step,
) -> Finding
    requires known { spec.CanFindInWalk net.now.settled.now traces.now.marks faults.now step }
    ensures { spec.IsWalkFinding net.now.settled.now traces.now.marks faults.now name step result }
{
    let next = match step {
        Step::Nowhere(_) => return Finding::Faulty(Ending::At(name)),
        Step::To(next) => next,
    };
    if let Some(faulty) = faults[next] {
        return Finding::Faulty(Ending::At(faulty.end));
    }
    match mark_of(net, traces, next) {
        Mark::Closed => Finding::Sound,
        Mark::OnPath => Finding::Faulty(Ending::Ring(next)),
        Mark::Open => Finding::Open(next),
    }
}

// Searches an open name and everything that it reaches, up to the first fault, and returns whether there is one. Each
// iteration of the loop passes one step, or goes down or up one name. The tactics do not terminate here, so all goals
// have answers.
#[tactic(none)]
fn search_name(
    net: &WalkGraph,
    start: usize,
    traces: &mut Traces,
    faults: &mut Vec<Option<FaultyStep>>,
) -> Result<bool, AllocError>
    requires net { IsConsistentGraph net.now.steps.now net.now.settled.now }
    requires between { spec.IsBetweenWalkSearches net.now.steps.now net.now.settled.now traces.old faults.old.items }
    requires fresh { spec.IsOpenForWalk net.now.settled.now traces.old.marks faults.old.items start }
    ensures can_clear { CanClearWalk traces.new.marks traces.new.entered_names faults.new.items }
    ensures found { IfOk result (spec.IsSearchedByWalk net.now.steps.now net.now.settled.now start traces.old traces.new
        faults.old.items faults.new.items) }
{
    traces.enter(start)?;
    let mut here = Frame::first(start);
    loop {
        let Some(step) = net.step(here.name, here.place) else {
            traces.close(here.name)?;
            let Some(above) = traces.pop() else {
                return Ok(false);
            };
            here = above.next();
            continue;
        };
        match step_finding(net, traces, faults, here.name, step) {
            Finding::Sound => here = here.next(),
            Finding::Open(next) => {
                traces.push(here)?;
                traces.enter(next)?;
                here = Frame::first(next);
            }
            Finding::Faulty(ending) => {
                note_path(traces, faults, here.name, step, ending);
                return Ok(true);
            }
        }
    }
}

// Returns the first step of a query that has a fault.
pub(crate) fn search_query(
    net: &WalkGraph,
    query: &[Step],
    traces: &mut Traces,
    faults: &mut Vec<Option<FaultyStep>>,
) -> Result<Option<Step>, AllocError>
    requires net { IsConsistentGraph net.now.steps.now net.now.settled.now }
    requires query { StayInGraph net.now.steps.now query.now }
    requires between { spec.IsBetweenWalkSearches net.now.steps.now net.now.settled.now traces.old faults.old.items }
    ensures can_clear { CanClearWalk traces.new.marks traces.new.entered_names faults.new.items }
    ensures between { IfOk result
        (λ _. spec.IsBetweenWalkSearches net.now.steps.now net.now.settled.now traces.new faults.new.items) }
    ensures names { IfOk result (λ _. AreWalkedFromQuery net.now.steps.now net.now.settled.now query.now
        traces.old.entered_names
        traces.new.entered_names) }
    ensures found { IfOk result (IsFirstFaultyWalkStep net.now.steps.now query.now faults.new.items) }
{
    for &step in query {
        let start = match step {
            Step::Nowhere(_) => return Ok(Some(step)),
            Step::To(start) => start,
        };
        if is_faulty(net, start, traces, faults)? {
            return Ok(Some(step));
        }
    }
    Ok(None)
}

// Returns whether a name has a fault, searching it first if nothing is known about it.
fn is_faulty(
    net: &WalkGraph,
    name: usize,
    traces: &mut Traces,
    faults: &mut Vec<Option<FaultyStep>>,
) -> Result<bool, AllocError>
    requires net { IsConsistentGraph net.now.steps.now net.now.settled.now }
    requires name { name < length net.now.steps.now }
    requires between { spec.IsBetweenWalkSearches net.now.steps.now net.now.settled.now traces.old faults.old.items }
    ensures can_clear { CanClearWalk traces.new.marks traces.new.entered_names faults.new.items }
    ensures found { IfOk result (spec.IsSearchedByWalk net.now.steps.now net.now.settled.now name traces.old traces.new
        faults.old.items faults.new.items) }
{
    if faults[name].is_some() {
        return Ok(true);
    }
    let Mark::Open = mark_of(net, traces, name) else {
        return Ok(false);
    };
    search_name(net, name, traces, faults)
}

// Makes room for the names that are new since the last search, and returns the first step of a query that has a fault.
pub(crate) fn search_from(
    net: &WalkGraph,
    query: &[Step],
    traces: &mut Traces,
    faults: &mut Vec<Option<FaultyStep>>,
) -> Result<Option<Step>, AllocError>
    requires net { IsConsistentGraph net.now.steps.now net.now.settled.now }
    requires query { StayInGraph net.now.steps.now query.now }
    requires consistent { IsConsistentWalkTrace traces.old faults.old.items }
    requires right { AreWalkFindings net.now.steps.now net.now.settled.now traces.old.order faults.old.items }
    ensures can_clear { CanClearWalk traces.new.marks traces.new.entered_names faults.new.items }
    ensures consistent { IfOk result (λ _. IsConsistentWalkTrace traces.new faults.new.items) }
    ensures right { IfOk result
        (λ _. AreWalkFindings net.now.steps.now net.now.settled.now traces.new.order faults.new.items) }
    ensures names { IfOk result (λ _. AreWalkedFromQuery net.now.steps.now net.now.settled.now query.now
        traces.old.entered_names
        traces.new.entered_names) }
    ensures found { IfOk result (IsFirstFaultyWalkStep net.now.steps.now query.now faults.new.items) }
{
    let names = net.steps.len();
    cover_marks(names, traces)?;
    cover_faults(names, faults)?;
    search_query(net, query, traces, faults)
}

// Makes room for the marks of at least `names` names. New names are open.
fn cover_marks(names: usize, traces: &mut Traces) -> Result<(), AllocError>
    ensures covered { spec.AreWalkMarksCovered traces.old traces.new }
    ensures marks { IfOk result (λ _. names ≤ length traces.new.marks) }
{
    if names <= traces.len() {
        return Ok(());
    }
    traces.cover(names)
}

// Makes room for the faults of at least `names` names. New names have no fault.
fn cover_faults(names: usize, faults: &mut Vec<Option<FaultyStep>>) -> Result<(), AllocError>
    ensures covered { spec.AreWalkFaultsCovered faults.old.items faults.new.items }
    ensures faults { IfOk result (λ _. names ≤ length faults.new.items) }
{
    if names <= faults.len() {
        return Ok(());
    }
    faults.resize(names, None)
}

// Forgets everything. The cost is proportional to the number of names about which something is known.
pub(crate) fn clear(alloc: Global, traces: &mut Traces, faults: &mut Vec<Option<FaultyStep>>)
    requires { CanClearWalk traces.old.marks traces.old.entered_names faults.old.items }
    ensures marks { IsIdleWalk traces.new }
    ensures order { traces.new.order ≡ [] }
    ensures faults { (n : ℕ) → IsFaultyInWalk faults.new.items n → ⊥ }
{
    for name in traces.entered_names() {
        faults[*name] = None;
    }
    traces.clean(alloc);
    traces.forget_order();
}
