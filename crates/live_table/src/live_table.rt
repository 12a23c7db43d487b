//! A deck with the outcome of each name that was queried.

ghost use Rattle.std.specs.Prelude.{◌≡◌, ◌≤◌, ◌-◌, ◌^◌, ◌∷◌, [], true, length, Err, IfOk, None, OnErr, OnOk};
ghost use Rattle.std.specs.FinMap as map_of;
ghost use Rattle.expr_tree.specs.Trees.{syntax};
ghost use Rattle.expr_tree.specs.Words.{words_in};
ghost use Rattle.def_entry.specs.Keys as key_spec;
ghost use Rattle.def_entry.specs.declared.key.Kind.TheVariants as kind;
ghost use Rattle.def_entry.specs.Tables.{is_entry_present};
ghost use Rattle.deck.specs.Tables.{table_of_deck};
ghost use Rattle.live_table.specs.declared.fault.QueryFault.TheVariants as query_fault;
ghost use Rattle.live_table.specs.declared.stop.Stop.TheVariants.{OutOfMemory};
ghost use Rattle.live_table.specs.Answers as spec;
ghost use Rattle.live_table.specs.Calls.{AreKeysPresentInLiveTable, AreLiveQueries, IsLiveQuery, all_settleable_names};
ghost use Rattle.live_table.specs.Calls.{live_key_queries, settle_all_queries};
ghost use Rattle.live_table.specs.TableView.{IsRightLiveView};
ghost use Rattle.live_table.specs.States.{AsksKey, AsksWords};

mod cached_outcomes;
mod deck_edits;
mod setting_edits;

use crate::counts::Counts;
use crate::evaluation::{evaluate_inverse, evaluate_tree};
use crate::explored_names::Explored;
use crate::fault::QueryFault;
use crate::late_edges::LateEdges;
use crate::name_queries::{ask_key, ask_words};
use crate::nodes::Nodes;
use crate::scratch::Scratch;
use crate::stop::{Stop, fault_of_stop};
use deck::{Deck, table_keys_law, tables_are_of_lines};
use def_entry::{Key, Kind};
use expr_tree::{Tree, words};
use name_walk::findings_law;
use quantity::Quantity;
use std::alloc::{AllocError, Global};
use std::marker::Model;
use std::sync::ledger::Ledger;
use units_io::Steps;

/// A deck with one cached outcome for each settled name. Contracts see the deck, a finite map from the settled names to
/// their outcomes, and the number of names that were settled.
pub struct LiveTable {
    deck: Deck,
    nodes: Nodes,
    edges: LateEdges,
    explored: Explored,
    scratch: Scratch,
    reductions: u64,
}

// By hand, so that code that drops a table has nothing to prove about its contents.
impl Drop for LiveTable {
    fn drop(self) {
        let LiveTable {
            deck: _,
            nodes: _,
            edges: _,
            explored: _,
            scratch: _,
            reductions: _,
        } = self;
    }
}

impl Model for LiveTable {
    ghost use Rattle.live_table.specs.TableView.{LiveView, live_view_code};
    ghost use Rattle.deck.specs.Tables.{table_of_deck};
    ghost use Rattle.live_table.specs.TableEdges.{IsLive};
    ghost use Rattle.live_table.specs.Exploration.{WereExplored};
    ghost use Rattle.live_table.specs.KnownFaults.{AreExploredFaultsKnown};
    ghost use Rattle.live_table.specs.TableContents.{live_view_of_nodes, node_lists};

    ghost Value = { LiveView };

    ghost coded = { live_view_code };

    ghost view = { λ t. live_view_of_nodes t.deck (node_lists t.nodes) t.reductions };

    ghost invariant = { λ t. IsLive t.deck (node_lists t.nodes) t.edges t.reductions
        × (WereExplored (table_of_deck t.deck) (node_lists t.nodes) t.explored.names t.explored.dead_ends.items
        × AreExploredFaultsKnown (node_lists t.nodes) t.explored.names t.explored.findings) };
}

impl LiveTable {
    /// Creates a table over a deck, with no name settled. It allocates no memory.
    pub fn new(alloc: Global, deck: Deck) -> LiveTable
        ensures { result ≡ record { deck = deck; kept_outcomes = map_of.empty; reductions = 0 } }
    {
        findings_law();
        let seed = deck.settings().vars.table_seed();
        LiveTable {
            deck,
            nodes: Nodes::new(alloc, seed),
            edges: LateEdges::new(alloc),
            explored: Explored::new(alloc),
            scratch: Scratch::new(alloc),
            reductions: 0,
        }
    }

    /// A law of every live table: the cached outcomes are right.
    pub fn outcomes_are_right(&self)
        ensures { IsRightLiveView self.now }
    {
        let _ = &self.deck;
    }

    /// Borrows the deck.
    pub fn deck(&self) -> &Deck
        ensures deck { result.now ≡ self.now.deck }
        ensures right { IsRightLiveView self.now }
    {
        &self.deck
    }

    /// Returns the value of an expression in the table of the present deck. Fails with `Name` and its name fault if it
    /// has one, else with `Value` and the first fault of its whole expansion if it has one, and with `OutOfMemory` if
    /// memory runs out. Without a name fault the names that it reaches are settled afterwards, each with one step.
    pub fn value<L: Ledger>(
        &mut self,
        alloc: Global,
        tree: &Tree,
        steps: &mut Steps<L>,
    ) -> Result<Quantity, QueryFault>
        ensures deck { self.new.deck ≡ self.old.deck }
        ensures answer { spec.IsLiveQueryResult result
            (spec.live_table_answer (table_of_deck self.old.deck) (syntax tree.now)) }
        ensures after { IsLiveQuery (AsksWords (words_in (syntax tree.now))) result
            self.old self.new steps.old steps.new }
    {
        let deck = &self.deck;
        let words = words(alloc, tree)?;
        let query = ask_words(
            alloc,
            deck,
            &mut self.nodes,
            &mut self.edges,
            &mut self.explored,
            &mut self.scratch,
            &mut self.reductions,
            &words,
            steps,
        );
        let nodes = &self.nodes;
        match query {
            Ok(query) => evaluate_tree(alloc, deck, nodes, tree, &words, query.as_slice()),
            Err(stop) => Err(fault_of_stop(alloc, deck, nodes, &self.explored, &stop)),
        }
    }

    /// Returns the value of an expression, as `value` does, or `None` if it has a fault, which is not named. The only
    /// error is lack of memory.
    pub fn value_if_any<L: Ledger>(
        &mut self,
        alloc: Global,
        tree: &Tree,
        steps: &mut Steps<L>,
    ) -> Result<Option<Quantity>, AllocError>
        ensures deck { self.new.deck ≡ self.old.deck }
        ensures value { IfOk result
            (λ x. x ≡ spec.live_answer_value (spec.live_table_answer (table_of_deck self.old.deck) (syntax tree.now))) }
        ensures after { AreLiveQueries (AsksWords (words_in (syntax tree.now)) ∷ []) result
            self.old self.new steps.old steps.new }
    {
        let deck = &self.deck;
        let words = words(alloc, tree)?;
        let query = ask_words(
            alloc,
            deck,
            &mut self.nodes,
            &mut self.edges,
            &mut self.explored,
            &mut self.scratch,
            &mut self.reductions,
            &words,
            steps,
        );
        match query {
            Ok(query) => value_of(evaluate_tree(
                alloc,
                deck,
                &self.nodes,
                tree,
                &words,
                query.as_slice(),
            )),
            Err(stop) => no_value(&stop),
        }
    }

    /// Returns the inverse, at a value, of a function that has an entry. It queries the function, and fails as `value`
    /// does.
    pub fn unapply<L: Ledger>(
        &mut self,
        alloc: Global,
        name: &[u8],
        value: &Quantity,
        steps: &mut Steps<L>,
    ) -> Result<Quantity, QueryFault>
        requires { is_entry_present (table_of_deck self.old.deck) (key_spec.key kind.Func name.now) ≡ true }
        ensures deck { self.new.deck ≡ self.old.deck }
        ensures answer { spec.IsLiveQueryResult result
            (spec.live_inverse_answer (table_of_deck self.old.deck) name.now value.now) }
        ensures after { IsLiveQuery (AsksKey (key_spec.key kind.Func name.now)) result
            self.old self.new steps.old steps.new }
    {
        let answer = ask_key(
            alloc,
            &self.deck,
            &mut self.nodes,
            &mut self.edges,
            &mut self.explored,
            &mut self.scratch,
            &mut self.reductions,
            Kind::Func,
            name,
            steps,
        );
        let nodes = &self.nodes;
        let n = match answer {
            Ok(n) => n,
            Err(stop) => {
                return Err(fault_of_stop(alloc, &self.deck, nodes, &self.explored, &stop));
            }
        };
        evaluate_inverse(alloc, &self.deck, nodes, n, value)
    }

    /// Queries each unit, prefix and function, in byte order of names. The only error is lack of memory.
    pub fn settle_all<L: Ledger>(
        &mut self,
        alloc: Global,
        steps: &mut Steps<L>,
    ) -> Result<(), AllocError>
        ensures deck { self.new.deck ≡ self.old.deck }
        ensures after { AreLiveQueries (settle_all_queries (table_of_deck self.old.deck)) result self.old self.new
            steps.old steps.new }
    {
        table_keys_law();
        let keys = self.deck.keys(alloc)?;
        self.settle_keys(alloc, keys.as_slice(), steps)
    }

    // Queries each unit, prefix and function among keys that have entries.
    fn settle_keys<L: Ledger>(
        &mut self,
        alloc: Global,
        keys: &[Key],
        steps: &mut Steps<L>,
    ) -> Result<(), AllocError>
        requires right { IsRightLiveView self.old }
        requires present { AreKeysPresentInLiveTable (table_of_deck self.old.deck) keys.now }
        ensures deck { self.new.deck ≡ self.old.deck }
        ensures after { AreLiveQueries (live_key_queries keys.now) result self.old self.new steps.old steps.new }
    {
        for key in keys {
            self.settle_key(alloc, key, steps)?;
        }
        Ok(())
    }

    // Queries a key that has an entry, unless it is a list.
    fn settle_key<L: Ledger>(
        &mut self,
        alloc: Global,
        key: &Key,
        steps: &mut Steps<L>,
    ) -> Result<(), AllocError>
        requires right { IsRightLiveView self.old }
        requires present { is_entry_present (table_of_deck self.old.deck) key.now ≡ true }
        ensures deck { self.new.deck ≡ self.old.deck }
        ensures after { AreLiveQueries (live_key_queries (key.now ∷ [])) result self.old self.new steps.old steps.new }
    {
        if let Kind::List = key.kind {
            return Ok(());
        }
        let answer = ask_key(
            alloc,
            &self.deck,
            &mut self.nodes,
            &mut self.edges,
            &mut self.explored,
            &mut self.scratch,
            &mut self.reductions,
            key.kind,
            key.name.as_bytes(),
            steps,
        );
        only_memory(&answer)
    }

    /// Returns the counts of the table.
    pub fn counts(&self) -> Counts
        ensures settled { result.settled ≡ map_of.len self.now.kept_outcomes }
        ensures names { result.names ≡ length (all_settleable_names (table_of_deck self.now.deck)) }
        ensures reductions { result.reductions ≡ self.now.reductions }
        ensures few { self.now.reductions ≤ 2 ^ 64 - 1 }
    {
        // No deck has so many lines that the sum would not fit.
        tables_are_of_lines();
        self.deck.lines_few();
        let units = self.deck.key_count(Kind::Unit);
        let prefixes = self.deck.key_count(Kind::Prefix);
        let functions = self.deck.key_count(Kind::Func);
        Counts {
            settled: self.nodes.settled_count as u64,
            names: (units + prefixes + functions) as u64,
            reductions: self.reductions,
        }
    }
}

// Fails if the query stopped for lack of memory.
fn only_memory(answer: &Result<usize, Stop>) -> Result<(), AllocError>
    ensures ok { OnOk result (answer.now ≡ Err OutOfMemory → ⊥) }
    ensures err { OnErr result (answer.now ≡ Err OutOfMemory) }
{
    match answer {
        Err(Stop::OutOfMemory) => Err(AllocError),
        _ => Ok(()),
    }
}

// Returns `None`, or fails if the query stopped for lack of memory.
fn no_value(stop: &Stop) -> Result<Option<Quantity>, AllocError>
    ensures value { IfOk result (λ value. value ≡ None) }
    ensures ok { OnOk result (stop.now ≡ OutOfMemory → ⊥) }
    ensures err { OnErr result (stop.now ≡ OutOfMemory) }
{
    match stop {
        Stop::At(_) | Stop::Below(_) => Ok(None),
        Stop::OutOfMemory => Err(AllocError),
    }
}

// Returns the value of a result, or `None` if it is a fault. Lack of memory is an error.
fn value_of(answer: Result<Quantity, QueryFault>) -> Result<Option<Quantity>, AllocError>
    ensures ok { IfOk result (λ value. value ≡ spec.live_answer_value answer) }
    ensures some { OnOk result (answer ≡ Err query_fault.OutOfMemory → ⊥) }
    ensures err { OnErr result (answer ≡ Err query_fault.OutOfMemory) }
{
    match answer {
        Ok(value) => Ok(Some(value)),
        Err(QueryFault::OutOfMemory) => Err(AllocError),
        Err(_) => Ok(None),
    }
}
