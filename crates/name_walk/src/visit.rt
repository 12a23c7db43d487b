//! The visit of one name and everything that it reaches.

ghost use Rattle.std.specs.Prelude.{◌≡◌, ◌<◌, length, IfOk};
ghost use Rattle.name_walk.specs.Nets.{IsConsistentGraph};
ghost use Rattle.name_walk.specs.Traces.{AreWalkNamesEntered};
ghost use Rattle.name_walk.specs.Visits.{IsBetweenWalkVisits, IsVisitedByWalk, IsWalkMarkFound};
ghost use Rattle.name_walk.specs.declared.mark.Mark.TheVariants.{Open};

use crate::chain::chain;
use crate::fault::Fault;
use crate::mark::Mark;
use crate::net::WalkGraph;
use crate::step::Step;
use crate::traces::{Frame, Traces};
use std::alloc::{AllocError, Global};

// Returns the mark of a name. A settled name counts as closed.
pub(crate) fn mark_of(net: &WalkGraph, traces: &Traces, name: usize) -> Mark
    requires settled { name < length net.now.settled.now }
    requires marked { name < length traces.now.marks }
    ensures { IsWalkMarkFound net.now.settled.now traces.now.marks name result }
{
    if net.settled[name] {
        return Mark::Closed;
    }
    traces.mark(name)
}

// Goes through an open name and everything that it reaches, and closes these names, targets before users. Returns the
// first fault, if there is one. Each iteration of the loop passes one step, or goes down or up one name, and searches
// no list.
pub(crate) fn visit(
    alloc: Global,
    net: &WalkGraph,
    start: usize,
    traces: &mut Traces,
) -> Result<Option<Fault>, AllocError>
    requires net { IsConsistentGraph net.now.steps.now net.now.settled.now }
    requires between { IsBetweenWalkVisits net.now.steps.now net.now.settled.now traces.old }
    requires fresh { IsWalkMarkFound net.now.settled.now traces.old.marks start Open }
    ensures entered { AreWalkNamesEntered traces.new.marks traces.new.entered_names }
    ensures size { length traces.new.marks ≡ length traces.old.marks }
    ensures visited { IfOk result (IsVisitedByWalk net.now.steps.now net.now.settled.now start traces.old traces.new) }
{
    traces.enter(start)?;
    let mut here = Frame::first(start);
    loop {
        match net.step(here.name, here.place) {
            None => {
                traces.close(here.name)?;
                let Some(above) = traces.pop() else {
                    return Ok(None);
                };
                here = above.next();
            }
            Some(Step::Nowhere(word)) => return Ok(Some(Fault::DeadEnd(word, Some(here.name)))),
            Some(Step::To(next)) => match mark_of(net, traces, next) {
                Mark::Closed => here = here.next(),
                Mark::OnPath => {
                    let names = chain(alloc, traces.frames(), here.name, next)?;
                    return Ok(Some(Fault::Cycle(names)));
                }
                Mark::Open => {
                    traces.push(here)?;
                    traces.enter(next)?;
                    here = Frame::first(next);
                }
            },
        }
    }
}
