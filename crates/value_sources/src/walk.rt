//! The walk over all names that an expression reaches.

ghost use Rattle.std.specs.Prelude.{◌≡◌, ◌+◌, [], IfOk, List, OnOk, Some, reverse, set, true};
ghost use Rattle.def_entry.specs.declared.key.Key.{Key as AnyKey};
ghost use Rattle.deck.specs.Tables as tables;
ghost use Rattle.expr_tree.specs.Trees.{syntax};
ghost use Rattle.expr_tree.specs.Words.{words_in};
ghost use Rattle.expr_tree.specs.declared.word_list.WordUse.{WordUse as AnyWord};
ghost use Rattle.value_sources.specs.Rows as rows_spec;
ghost use Rattle.value_sources.specs.PlacedMentions.{placed_mentions};
ghost use Rattle.value_sources.specs.StoredMentions.{mention_in, placed_mention_list, source_rows_in};
ghost use Rattle.value_sources.specs.declared.site.Site.TheVariants as site;
ghost use Rattle.value_sources.specs.Uses.{key_source_uses, source_uses_at};
ghost use Rattle.value_sources.specs.Visits.{unmarked_mention_place};
ghost use Rattle.value_sources.specs.Walks as spec;

use crate::lookup::Lookup;
use crate::mention::{Location, StoredMention};
use crate::mentions::push_reversed;
use crate::row::Row;
use crate::site::Site;
use deck::Deck;
use expr_tree::Tree;
use live_table::TriedKeys;
use name_lookup::targets_are_present;
use std::alloc::{AllocError, Global};

/// A walk over the words that evaluation of an expression encounters. It gives their rows one after another: each word
/// in its order, with each of the keys that it leads to. The rows of the words of an entry follow the first row of its
/// key. No entry is read twice, and the walk borrows nothing from the deck.
// A line of the deck is marked if the key for which it is in force was visited.
pub struct Walk {
    tried: TriedKeys,
    // The mentions of the last visited entry. Their memory is reused for the next entry.
    found: Vec<StoredMention>,
    marks: Vec<bool>,
    // The next one last.
    pending: Vec<StoredMention>,
}

// Written by hand, so that code that drops a walk need not prove anything about its contents.
impl Drop for Walk {
    fn drop(self) {
        let Walk {
            tried: _,
            found: _,
            marks: _,
            pending: _,
        } = self;
    }
}

impl Walk {
    /// Returns the walk over an expression before its first row. The only error is lack of memory.
    pub fn new(alloc: Global, deck: &Deck, tree: &Tree) -> Result<Walk, AllocError>
        ensures { IfOk result (λ walk. spec.IsSourceWalk deck.now (words_in (syntax tree.now)) [] walk) }
    {
        targets_are_present();
        let lookup = Lookup { alloc, deck };
        let mut tried = TriedKeys::new(alloc);
        let pending = first_mentions(&lookup, &mut tried, tree)?;
        let marks = no_marks(&lookup)?;
        Ok(Walk {
            tried,
            found: Vec::new(alloc),
            marks,
            pending,
        })
    }

    /// Returns the next row, or `None` after the last one. The deck must be that of the whole walk. The cost is
    /// proportional to the words of the entry, if the row visits its key. The only error is lack of memory.
    pub fn next(&mut self, alloc: Global, deck: &Deck) -> Result<Option<Row>, AllocError>
        ensures { IfOk result (λ next. (words : List AnyWord) (rows : List rows_spec.SourceRow)
            → spec.IsSourceWalk deck.now words rows self.old → spec.IsNextSourceRow deck.now words rows self.new next) }
    {
        targets_are_present();
        let Some(mention) = self.pending.pop() else {
            return Ok(None);
        };
        let Some(place) = unvisited_place(&self.marks, mention.place) else {
            return Ok(Some(Row {
                mention,
                is_visit: false,
            }));
        };
        set_mark(&mut self.marks, place);
        let lookup = Lookup { alloc, deck };
        put_found(&lookup, &mut self.tried, &mut self.found, &mention, place)?;
        push_reversed(&mut self.pending, &mut self.found)?;
        Ok(Some(Row {
            mention,
            is_visit: true,
        }))
    }

    /// Returns the mentions of the next rows, the next one last. After a row that visits a key, the words of its entry
    /// are the last ones whose depth is greater.
    pub fn pending(&self) -> &[StoredMention]
        ensures { result.now ≡ self.now.pending.items }
    {
        self.pending.as_slice()
    }
}

/// Returns all rows of an expression. The only error is lack of memory.
pub fn rows(alloc: Global, deck: &Deck, tree: &Tree) -> Result<Vec<Row>, AllocError>
    ensures { IfOk result (λ rows. rows_spec.AreSourceRowsOf (tables.table_of_deck deck.now)
        (words_in (syntax tree.now)) (source_rows_in deck.now rows.items)) }
{
    let mut walk = Walk::new(alloc, deck, tree)?;
    let mut rows = Vec::new(alloc);
    while let Some(row) = walk.next(alloc, deck)? {
        rows.push(row)?;
    }
    Ok(rows)
}

// Returns the mentions of the words of an expression, the first one last.
fn first_mentions(
    lookup: &Lookup<'_>,
    tried: &mut TriedKeys,
    tree: &Tree,
) -> Result<Vec<StoredMention>, AllocError>
    ensures { IfOk result (λ pending. reverse (placed_mention_list lookup.now.deck.now pending.items)
        ≡ placed_mentions lookup.now.deck.now 0 (source_uses_at site.Expression (words_in (syntax tree.now)))) }
{
    let location = Location {
        depth: 0,
        site: Site::Expression,
    };
    let mut mentions = Vec::new(lookup.alloc);
    lookup.put_tree(tried, &mut mentions, location, tree)?;
    let mut pending = Vec::new(lookup.alloc);
    push_reversed(&mut pending, &mut mentions)?;
    Ok(pending)
}

// Returns a mark for each line, none of which is set.
fn no_marks(lookup: &Lookup<'_>) -> Result<Vec<bool>, AllocError>
    ensures { IfOk result (λ marks. spec.AreVisitedKeysMarked lookup.now.deck.now marks.items []) }
{
    let mut marks = Vec::new(lookup.alloc);
    marks.resize(lookup.deck.lines().len(), false)?;
    Ok(marks)
}

// Returns the place of the line in force for the key of a mention, if the mention has a key that was not visited.
fn unvisited_place(marks: &[bool], place: Option<usize>) -> Option<usize>
    ensures { result ≡ unmarked_mention_place marks.now place }
{
    let Some(place) = place else {
        return None;
    };
    match marks.get(place) {
        Some(true) => None,
        _ => Some(place),
    }
}

// Marks a line.
fn set_mark(marks: &mut Vec<bool>, place: usize)
    ensures { marks.new.items ≡ set marks.old.items place true }
{
    if place < marks.len() {
        marks[place] = true;
    }
}

// Finds the mentions of the words of the entry of a key, in order. The entry is found faster if its line is at this
// place.
fn put_found(
    lookup: &Lookup<'_>,
    tried: &mut TriedKeys,
    found: &mut Vec<StoredMention>,
    mention: &StoredMention,
    place: usize,
) -> Result<(), AllocError>
    ensures { OnOk result ((n : AnyKey) → (mention_in lookup.now.deck.now mention.now).target ≡ Some n
        → placed_mention_list lookup.now.deck.now found.new.items
        ≡ placed_mentions lookup.now.deck.now (mention.now.location.depth + 1)
        (key_source_uses (tables.table_of_deck lookup.now.deck.now) n)) }
{
    // No memory holds so many entries that the depth of a word would not fit.
    let Some(depth) = mention.location.depth.checked_add(1) else {
        return Err(AllocError);
    };
    found.clear();
    let Some(key) = mention.key(lookup.deck) else {
        return Ok(());
    };
    let Some(entry) = lookup.deck.entry_with_hint(place, key.kind, key.name) else {
        return Ok(());
    };
    lookup.put_entry_mentions(tried, found, depth, entry.what)
}
