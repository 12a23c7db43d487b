//! The walk of a query.

ghost use Rattle.std.specs.Prelude.{◌≡◌, ◌+◌, [], length, IfOk, OnOk, OnErr};
ghost use Rattle.name_walk.specs.Nets.{IsConsistentGraph};
ghost use Rattle.name_walk.specs.Steps.{StayInGraph};
ghost use Rattle.name_walk.specs.Traces.{AreWalkNamesEntered};
ghost use Rattle.name_walk.specs.Visits.{IsBetweenWalkVisits};
ghost use Rattle.name_walk.specs.Walks.{IsWalked};

use crate::fault::Fault;
use crate::mark::Mark;
use crate::net::WalkGraph;
use crate::step::Step;
use crate::traces::Traces;
use crate::visit::{mark_of, visit};
use std::alloc::{AllocError, Global};
use std::marker::Model;

/// Walks over names, and reuses its memory from one query to the next. Contracts see the order of its last walk.
#[derive(Drop)]
pub struct Walker {
    traces: Traces,
}

impl Model for Walker {
    ghost use Rattle.std.specs.Prelude.{List, ℕ};
    ghost use Rattle.name_walk.specs.Traces.{IsIdleWalk};

    ghost Value = { List ℕ };

    ghost view = { λ w. w.traces.order };

    ghost invariant = { λ w. IsIdleWalk w.traces };
}

impl Walker {
    /// Returns a walker that has not walked yet. It allocates no memory.
    pub fn new(alloc: Global) -> Walker
        ensures { result ≡ [] }
    {
        Walker {
            traces: Traces::new(alloc),
        }
    }

    /// Returns the names that the last walk newly closed, targets before users. After a name fault or an allocation
    /// error the order is unspecified.
    pub fn order(&self) -> &[usize]
        ensures { result.now ≡ self.now }
    {
        self.traces.order()
    }

    /// Walks over everything that the steps of a query reach, in order, and returns the first name fault. If there is
    /// none, it returns `None`, and `order` gives the names that the query newly closes: those that it reaches and that
    /// were not settled. The query consists of the steps of words, or of the one step to a name. The only error is
    /// running out of memory.
    ///
    /// The cost is that of the names that are new since the last walk, and of the steps of the names that the walk goes
    /// through, each once; settled names are skipped. The walker is ready for the next query after any result.
    pub fn walk(
        &mut self,
        alloc: Global,
        net: &WalkGraph,
        query: &[Step],
    ) -> Result<Option<Fault>, AllocError>
        requires net { IsConsistentGraph net.now.steps.now net.now.settled.now }
        requires query { StayInGraph net.now.steps.now query.now }
        ensures walked { IfOk result
            (IsWalked net.now.steps.now net.now.settled.now query.now self.new) }
    {
        self.traces.cover(net.steps.len())?;
        self.traces.forget_order();
        let result = visit_each(alloc, net, query, &mut self.traces);
        self.traces.clean(alloc);
        result
    }
}

// Goes through the steps of a query, in order, and returns the first fault.
fn visit_each(
    alloc: Global,
    net: &WalkGraph,
    query: &[Step],
    traces: &mut Traces,
) -> Result<Option<Fault>, AllocError>
    requires net { IsConsistentGraph net.now.steps.now net.now.settled.now }
    requires query { StayInGraph net.now.steps.now query.now }
    requires between { IsBetweenWalkVisits net.now.steps.now net.now.settled.now traces.old }
    requires nothing { traces.old.order ≡ [] }
    ensures entered { AreWalkNamesEntered traces.new.marks traces.new.entered_names }
    ensures size { length traces.new.marks ≡ length traces.old.marks }
    ensures visited { IfOk result
        (IsWalked net.now.steps.now net.now.settled.now query.now traces.new.order) }
{
    for &step in query {
        let start = match step {
            Step::Nowhere(word) => return Ok(Some(Fault::DeadEnd(word, None))),
            Step::To(start) => start,
        };
        let Mark::Open = mark_of(net, traces, start) else {
            continue;
        };
        if let Some(fault) = visit(alloc, net, start, traces)? {
            return Ok(Some(fault));
        }
    }
    Ok(None)
}
