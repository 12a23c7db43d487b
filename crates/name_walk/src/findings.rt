//! The results of searches, remembered for each name.

ghost use Rattle.std.specs.Prelude.{◌≡◌, ◌↔◌, ◌∷◌, [], Bool, List, Some, IfOk, IsTrue, OnErr};
ghost use Rattle.name_walk.specs.Faults.{steps_fault_after_path};
ghost use Rattle.name_walk.specs.Findings as spec;
ghost use Rattle.name_walk.specs.Nets.{IsConsistentGraph};
ghost use Rattle.name_walk.specs.Steps.{Graph, StayInGraph};
ghost use Rattle.name_walk.specs.Walks.{walk_fault_view};

use crate::fault::Fault;
use crate::known_faults::name_fault;
use crate::net::WalkGraph;
use crate::search::{clear, search_from};
use crate::step::Step;
use crate::traces::Traces;
use crate::trail::FaultyStep;
use std::alloc::{AllocError, Global};
use std::marker::Model;

/// The names that searches have gone through: which of them are sound, and which have a fault. No search goes through
/// a name twice. Contracts see the sound names, what is known about each name with a fault, and all names about which
/// something is known.
#[derive(Drop)]
pub struct Findings {
    // Closed names are sound. The entered names are those that `clear` has to forget.
    traces: Traces,
    faults: Vec<Option<FaultyStep>>,
}

impl Model for Findings {
    ghost use Rattle.name_walk.specs.Findings.{IsConsistentWalkTrace, WalkFindings};

    ghost Value = { WalkFindings };

    ghost view = { λ f. record {
      sound_names = f.traces.order;
      faults = f.faults.items;
      names = f.traces.entered_names;
    } };

    ghost invariant = { λ f. IsConsistentWalkTrace f.traces f.faults.items };
}

impl Findings {
    /// Returns empty findings. They allocate no memory.
    pub fn new(alloc: Global) -> Findings
        ensures { spec.AreNoWalkFindings result }
    {
        Findings {
            traces: Traces::new(alloc),
            faults: Vec::new(alloc),
        }
    }

    /// Reports whether nothing is known about any name.
    pub fn is_empty(&self) -> bool
        ensures { IsTrue result ↔ (self.now.names ≡ []) }
    {
        self.traces.entered_names().is_empty()
    }

    /// Forgets everything. The cost is proportional to the number of names about which something is known.
    pub fn clear(&mut self, alloc: Global)
        ensures { spec.AreNoWalkFindings self.new }
    {
        clear(alloc, &mut self.traces, &mut self.faults);
    }

    /// Returns the first step of a query that leads nowhere or to a name with a fault, or `None` if the query has no
    /// fault.
    ///
    /// The search goes through each name at most once and remembers the result: its cost is that of the steps of the
    /// names about which nothing was known, and of the names that are new since the last search. Settled names are
    /// skipped. The caller clears the findings when a step of one of their names changes. The only error is running out
    /// of memory; then all findings are forgotten.
    pub fn find(
        &mut self,
        alloc: Global,
        net: &WalkGraph,
        query: &[Step],
    ) -> Result<Option<Step>, AllocError>
        requires net { IsConsistentGraph net.now.steps.now net.now.settled.now }
        requires query { StayInGraph net.now.steps.now query.now }
        requires right { spec.AreRightWalkFindings net.now.steps.now net.now.settled.now self.old }
        ensures right { spec.AreRightWalkFindings net.now.steps.now net.now.settled.now self.new }
        ensures names { spec.AreWalkedFromQuery net.now.steps.now net.now.settled.now query.now self.old.names
            self.new.names }
        ensures found { IfOk result (spec.IsFirstFaultyWalkStep net.now.steps.now query.now self.new.faults) }
        ensures err { OnErr result (spec.AreNoWalkFindings self.new) }
    {
        match search_from(net, query, &mut self.traces, &mut self.faults) {
            Ok(found) => Ok(found),
            Err(error) => {
                clear(alloc, &mut self.traces, &mut self.faults);
                Err(error)
            }
        }
    }

    /// Returns the fault of a step that leads nowhere or to a name with a known fault. The cost is proportional to the
    /// number of names in the fault. The only error is running out of memory.
    pub fn fault(&self, alloc: Global, step: Step) -> Result<Fault, AllocError>
        requires known { spec.IsFaultyWalkStep self.now.faults step }
        ensures { IfOk result (λ f. (g : Graph) (s : List Bool) → IsConsistentGraph g s
            → spec.AreRightWalkFindings g s self.now
            → steps_fault_after_path g [] (step ∷ []) ≡ Some (walk_fault_view f)) }
    {
        match step {
            Step::Nowhere(word) => Ok(Fault::DeadEnd(word, None)),
            Step::To(name) => name_fault(alloc, &self.faults, name),
        }
    }
}
