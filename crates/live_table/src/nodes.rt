//! The names of a live table, by number.

ghost use Rattle.std.specs.Prelude.{◌≡◌, ◌<◌, ◌++◌, ◌∷◌, [], List, IfOk, OnErr, OnOk, length, slice_set};
ghost use Rattle.std.specs.Option.{is_some};
ghost use Rattle.def_entry.specs.declared.key.Key.{Key};
ghost use Rattle.def_entry.specs.Keys.{key};
ghost use Rattle.def_entry.specs.SameKeys.{is_entry_key_among};
ghost use Rattle.live_table.specs.Exploration.{IsNameAddedToNodes};
ghost use Rattle.live_table.specs.KeyNumbers.{HasNodeNumber, HasNodeRoom};
ghost use Rattle.live_table.specs.TableContents.{no_nodes, node_lists};

use crate::callee::{Callee, PartStarts};
use crate::key_index::KeyIndex;
use crate::worklist::Worklist;
use def_entry::Kind;
use name_lookup::Present;
use name_walk::StepList;
use std::alloc::{AllocError, Global};
use tree_eval::Outcome;
use units_io::HashSeed;

/// The names of a live table by number, absent names included: the key of each, whether it has an entry, the data of a
/// function, the outcome of a settled name, the steps of its words, the numbers of the keys at which they look besides
/// their targets, and whether it is settled; and the number of settled names.
pub(crate) struct Nodes {
    pub(crate) keys: KeyIndex,
    pub(crate) present: Vec<bool>,
    pub(crate) callees: Vec<Callee>,
    pub(crate) outcomes: Vec<Option<Outcome>>,
    pub(crate) steps: Vec<StepList>,
    pub(crate) looks: Vec<Vec<usize>>,
    pub(crate) settled: Vec<bool>,
    pub(crate) settled_count: usize,
    // the place in the deck near which the entry of each name was found when the name was added or its key last
    // changed; an edit of other lines may have moved the entry since
    pub(crate) places: Vec<u32>,
    // the keys at which the words of one name have looked so far besides their targets
    pub(crate) gathered: Worklist,
}

// Written by hand, so that code that drops names need not prove anything about the contents.
impl Drop for Nodes {
    fn drop(self) {
        let Nodes {
            keys: _,
            present: _,
            callees: _,
            outcomes: _,
            steps: _,
            looks: _,
            settled: _,
            settled_count: _,
            places: _,
            gathered: _,
        } = self;
    }
}

impl Nodes {
    /// Returns an empty list of names. The table of keys uses the seed.
    pub(crate) fn new(alloc: Global, seed: HashSeed) -> Nodes
        ensures { node_lists result ≡ no_nodes }
    {
        Nodes {
            keys: KeyIndex::new(alloc, seed),
            present: Vec::new(alloc),
            callees: Vec::new(alloc),
            outcomes: Vec::new(alloc),
            steps: Vec::new(alloc),
            looks: Vec::new(alloc),
            settled: Vec::new(alloc),
            settled_count: 0,
            places: Vec::new(alloc),
            gathered: Worklist::new(alloc),
        }
    }

    /// Returns the number of a key. If it has none, a name is added, which is not settled and has no steps yet; only
    /// then is the table queried for the place of the key in the deck. On failure nothing changes.
    pub(crate) fn add<P: Present>(
        &mut self,
        alloc: Global,
        table: &P,
        kind: Kind,
        name: &[u8],
    ) -> Result<usize, AllocError>
        ensures ok { IfOk result (λ n. HasNodeNumber (key kind name.now)
            (is_entry_key_among (P.keys table.now) (key kind name.now))
            n (node_lists self.old) (node_lists self.new)) }
        ensures err { OnErr result (node_lists self.new ≡ node_lists self.old) }
        ensures gathered { self.new.gathered ≡ self.old.gathered }
    {
        self.reserve_rows(1)?;
        let added = self.keys.add(alloc, kind, name)?;
        if added.is_new {
            self.push_row(alloc, table.find(kind, name));
        }
        Ok(added.number)
    }

    // Makes room for the data of `more` further names.
    fn reserve_rows(&mut self, more: usize) -> Result<(), AllocError>
        ensures listed { node_lists self.new ≡ node_lists self.old }
        ensures gathered { self.new.gathered ≡ self.old.gathered }
        ensures room { OnOk result (HasNodeRoom more self.new) }
    {
        self.present.reserve(more)?;
        self.callees.reserve(more)?;
        self.outcomes.reserve(more)?;
        self.steps.reserve(more)?;
        self.looks.reserve(more)?;
        self.settled.reserve(more)?;
        self.places.reserve(more)
    }

    // Appends the data of a name whose key is the last one, given the place of the key in the deck. No push fails, since
    // there is room.
    fn push_row(&mut self, alloc: Global, place: Option<usize>)
        requires room { HasNodeRoom 1 self.old }
        ensures row { (k : Key) (keys : List Key) → self.old.keys ≡ keys ++ k ∷ []
            → IsNameAddedToNodes k (is_some place) (record (node_lists self.old) { keys = keys }) (node_lists self.new) }
        ensures gathered { self.new.gathered ≡ self.old.gathered }
    {
        self.present.push(place.is_some()).unwrap();
        self.callees.push(no_callee()).unwrap();
        self.outcomes.push(None).unwrap();
        self.steps.push(StepList::new(alloc)).unwrap();
        self.looks.push(Vec::new(alloc)).unwrap();
        self.settled.push(false).unwrap();
        self.places.push(short(place)).unwrap();
    }

    /// Updates the place of the key of a name in the deck, and so whether it has an entry.
    pub(crate) fn note(&mut self, n: usize, place: Option<usize>)
        requires { n < length self.old.present.items }
        ensures present { self.new.present.items ≡ slice_set self.old.present.items n (is_some place) }
        ensures rest { node_lists self.new ≡ record (node_lists self.old) { entry_flags = self.new.present.items } }
    {
        self.present[n] = place.is_some();
        if n < self.places.len() {
            self.places[n] = short(place);
        }
    }

    /// Makes room for `count` names in total.
    pub(crate) fn make_room(&mut self, count: usize) -> Result<(), AllocError>
        ensures listed { node_lists self.new ≡ node_lists self.old }
        ensures gathered { self.new.gathered ≡ self.old.gathered }
    {
        let more = count.saturating_sub(self.keys.len());
        self.keys.reserve(more)?;
        self.reserve_rows(more)
    }

    /// Returns the place in the deck near which the entry of a name was when it was last found.
    pub(crate) fn place(&self, n: usize) -> usize {
        match self.places.get(n) {
            Some(place) => *place as usize,
            None => 0,
        }
    }
}

// The stored form of a place, 0 if there is none or it does not fit.
fn short(place: Option<usize>) -> u32 {
    match place {
        Some(place) => u32::try_from(place).unwrap_or(0),
        None => 0,
    }
}

// The data of a name before its entry is read.
fn no_callee() -> Callee {
    let starts = PartStarts {
        out_unit: 0,
        forward: 0,
        inverse: 0,
    };
    Callee { rank: 0, starts }
}
