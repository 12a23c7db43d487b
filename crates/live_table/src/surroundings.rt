//! The environment that the nodes provide to an evaluation.

ghost use Rattle.std.specs.Prelude.{◌≡◌, ◌+◌, ◌*◌, ◌^◌, ◌<◌, ℕ, true, Some, length, slice_get};
ghost use Rattle.def_entry.specs.Tables.{entry_at, is_entry_present};
ghost use Rattle.def_entry.specs.Views.{entry_view};
ghost use Rattle.deck.specs.Tables.{table_of_deck};
ghost use Rattle.name_walk.specs.Steps.{graph_steps};
ghost use Rattle.live_table.specs.declared.callee.Callee.{Callee};
ghost use Rattle.live_table.specs.Callees as callees;
ghost use Rattle.live_table.specs.TableContents.{node_key_at};

use crate::nodes::Nodes;
use deck::Deck;
use def_entry::{Entry, What};
use expr_tree::Words;
use name_walk::Step;
use std::marker::Model;
use tree_eval::{Env, Holder, Meaning, Outcome, Part};

/// The subject of an evaluation.
#[derive(Clone, Copy, Drop)]
pub(crate) enum Asked<'a, 'w> {
    /// An expression with these words and their steps.
    Expression(&'a Words<'w>, &'a [Step]),
    /// The name with this number.
    Name(usize),
}

/// A deck and its nodes as an evaluation sees them.
#[derive(Drop)]
pub(crate) struct Surroundings<'a, 'w> {
    pub(crate) deck: &'a Deck,
    pub(crate) nodes: &'a Nodes,
    pub(crate) asked: Asked<'a, 'w>,
}

impl<'a, 'w> Model for Surroundings<'a, 'w> {
    ghost use Rattle.live_table.specs.Scenes.{NodeScene};

    ghost Value = { NodeScene };

    ghost use Rattle.live_table.specs.TableContents.{node_lists};
    ghost use Rattle.live_table.specs.EvalInvariants.{AreRightNodesWithSubject, node_scene};

    ghost view = { λ s. node_scene s.deck.now (node_lists s.nodes.now) s.asked };

    ghost invariant = { λ s. AreRightNodesWithSubject s.deck.now (node_lists s.nodes.now) s.asked };
}

impl<'a, 'w> Env for Surroundings<'a, 'w> {
    ghost use Rattle.live_table.specs.Scenes as scenes;

    ghost words = { scenes.node_holder_words };

    ghost means = { scenes.node_word_meaning };

    ghost has = { scenes.has_node_callee };

    ghost callee = { scenes.node_callee_at };

    fn meaning(&self, holder: Holder, place: usize) -> Meaning<'_> {
        self.meaning_of_targets(self.targets(holder, place))
    }

    fn function(&self, id: usize) -> &What {
        entry(self.deck, self.nodes, id).what
    }

    fn function_name(&self, id: usize) -> &[u8] {
        self.nodes.keys.name(id)
    }

    fn rank(&self, id: usize) -> u32 {
        self.nodes.callees[id].rank
    }
}

// The numbers of the targets of a word: a single target twice, or a prefix and a unit.
#[derive(Clone, Copy, Drop)]
struct Targets {
    first: usize,
    second: usize,
}

impl<'a, 'w> Surroundings<'a, 'w> {
    ghost use Rattle.expr_tree.specs.declared.word_list.WordUse.{WordUse};
    ghost use Rattle.tree_eval.specs.Environment.{IsReportedEvalMeaning};
    ghost use Rattle.table_names.specs.Meanings as names;
    ghost use Rattle.name_walk.specs.ClosedNames.{IsSettledInGraph};
    ghost use Rattle.live_table.specs.Scenes as scenes;

    // Returns the numbers of the targets of the word at a place.
    fn targets(&self, holder: Holder, place: usize) -> Targets
        requires { place < length (scenes.node_holder_words self.now holder) }
        ensures led { (u : WordUse) → slice_get (scenes.node_holder_words self.now holder) place ≡ Some u
            → scenes.IsWordLedToSettled self.now u result.first result.second }
        ensures first { IsSettledInGraph self.now.settled_flags result.first }
        ensures second { IsSettledInGraph self.now.settled_flags result.second }
    {
        match holder {
            Holder::Query => match self.asked {
                Asked::Expression(_, steps) => targets_at(steps, place),
                Asked::Name(_) => unreachable!(),
            },
            Holder::Of(id, part) => {
                let steps = steps_of(self.nodes, id);
                targets_at(steps, start_of(self.nodes, id, part) + place)
            }
        }
    }

    // Returns the meaning of a word, given the numbers of its targets.
    fn meaning_of_targets(&self, targets: Targets) -> Meaning<'_>
        requires first { IsSettledInGraph self.now.settled_flags targets.first }
        requires second { IsSettledInGraph self.now.settled_flags targets.second }
        ensures { (u : WordUse) → scenes.IsWordLedToSettled self.now u targets.first targets.second
            → IsReportedEvalMeaning (scenes.has_node_callee self.now) (scenes.node_callee_at self.now)
            (scenes.node_word_meaning self.now u) result }
    {
        let outcome = self.outcome(targets.first);
        if targets.first != targets.second {
            return Meaning::Two(outcome, self.outcome(targets.second));
        }
        match outcome {
            Outcome::Callable => Meaning::Function(targets.first),
            _ => Meaning::One(outcome),
        }
    }

    // Returns the outcome of a settled name.
    fn outcome(&self, n: usize) -> &Outcome
        requires { IsSettledInGraph self.now.settled_flags n }
        ensures { result.now ≡ names.outcome (table_of_deck self.now.deck) (node_key_at self.now.keys n) }
    {
        match &self.nodes.outcomes[n] {
            Some(outcome) => outcome,
            None => unreachable!(),
        }
    }
}

/// Returns the entry of the key with number `n`.
pub(crate) fn entry<'a>(deck: &'a Deck, nodes: &Nodes, n: usize) -> Entry<'a>
    requires within { n < length nodes.now.keys }
    requires present { is_entry_present (table_of_deck deck.now) (node_key_at nodes.now.keys n) ≡ true }
    ensures { entry_at (table_of_deck deck.now) (node_key_at nodes.now.keys n) ≡ Some (entry_view result) }
{
    let kind = nodes.keys.kind(n);
    let name = nodes.keys.name(n);
    deck.entry_with_hint(nodes.place(n), kind, name).unwrap()
}

/// Borrows the steps of the name with number `n`.
pub(crate) fn steps_of(nodes: &Nodes, n: usize) -> &[Step]
    requires { n < length nodes.now.steps.items }
    ensures is { result.now ≡ graph_steps nodes.now.steps.items n }
    ensures few { length result.now < 2 ^ 63 }
{
    nodes.steps[n].as_slice()
}

// Returns the place at which the words of a part begin among those of the entry of the name with number `n`.
fn start_of(nodes: &Nodes, n: usize, part: Part) -> usize
    requires { n < length nodes.now.callees.items }
    ensures { (c : Callee) → slice_get nodes.now.callees.items n ≡ Some c → result
        ≡ callees.cached_part_start c.starts part }
{
    let starts = &nodes.callees[n].starts;
    match part {
        Part::OutUnit => starts.out_unit as usize,
        Part::Forward => starts.forward as usize,
        Part::Inverse => starts.inverse as usize,
        Part::InUnit | Part::TableUnit | Part::Body => 0,
    }
}

// Returns the numbers to which the steps of the word at a place lead.
fn targets_at(steps: &[Step], place: usize) -> Targets
    requires first { (n : ℕ) × (slice_get steps.now (2 * place) ≡ Some (Step.To n)) }
    requires second { (n : ℕ) × (slice_get steps.now (2 * place + 1) ≡ Some (Step.To n)) }
    ensures first { slice_get steps.now (2 * place) ≡ Some (Step.To result.first) }
    ensures second { slice_get steps.now (2 * place + 1) ≡ Some (Step.To result.second) }
{
    Targets {
        first: number_of(steps[2 * place]),
        second: number_of(steps[2 * place + 1]),
    }
}

// Returns the number to which a step leads.
fn number_of(step: Step) -> usize
    requires { (n : ℕ) × (step ≡ Step.To n) }
    ensures { step ≡ Step.To result }
{
    match step {
        Step::To(n) => n,
        Step::Nowhere(_) => unreachable!(),
    }
}
