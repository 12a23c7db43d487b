//! The mentions of the words of an entry.

ghost use Rattle.std.specs.Prelude.{◌≡◌, ◌++◌, OnOk, option_map};
ghost use Rattle.std.specs.Option.{option_copied};
ghost use Rattle.def_entry.specs.Views.{entry_definition_view, function_entry_view};
ghost use Rattle.expr_tree.specs.Trees.{syntax};
ghost use Rattle.expr_tree.specs.Words.{words_in};
ghost use Rattle.tree_eval.specs.Entries.{eval_tree_words_if};
ghost use Rattle.value_sources.specs.PlacedMentions.{placed_mentions};
ghost use Rattle.value_sources.specs.StoredMentions.{placed_mention_list};
ghost use Rattle.value_sources.specs.Uses as uses;

use crate::lookup::Lookup;
use crate::mention::{Location, StoredMention};
use crate::site::Site;
use def_entry::{FunctionDef, What};
use expr_tree::{Tree, WordKind, WordUse, words};
use live_table::TriedKeys;
use std::alloc::AllocError;
use units_io::Text;

impl Lookup<'_> {
    /// Appends the mentions of the words of an entry, tree after tree. The only error is lack of memory.
    pub(crate) fn put_entry_mentions(
        &self,
        tried: &mut TriedKeys,
        mentions: &mut Vec<StoredMention>,
        depth: usize,
        what: &What,
    ) -> Result<(), AllocError>
        ensures { OnOk result (placed_mention_list self.now.deck.now mentions.new.items
            ≡ placed_mention_list self.now.deck.now mentions.old.items
            ++ placed_mentions self.now.deck.now depth (uses.what_source_uses (entry_definition_view what.now))) }
    {
        match what {
            What::Primitive | What::Dimensionless | What::ListOf(_) => Ok(()),
            What::Body(tree) => self.put_tree(tried, mentions, at(depth, Site::Body), tree),
            What::Function(function) => self.put_function(tried, mentions, depth, function),
            What::Alias(target) => self.put_alias(tried, mentions, depth, target),
            What::Table(table) => {
                self.put_tree(tried, mentions, at(depth, Site::TableUnit), &table.unit)
            }
        }
    }

    // Appends the mentions of the words of the trees of a function.
    fn put_function(
        &self,
        tried: &mut TriedKeys,
        mentions: &mut Vec<StoredMention>,
        depth: usize,
        function: &FunctionDef,
    ) -> Result<(), AllocError>
        ensures { OnOk result (placed_mention_list self.now.deck.now mentions.new.items
            ≡ placed_mention_list self.now.deck.now mentions.old.items
            ++ placed_mentions self.now.deck.now depth (uses.function_source_uses (function_entry_view function.now))) }
    {
        let in_unit = function.in_unit.as_ref();
        self.put_tree_if(tried, mentions, at(depth, Site::InUnit), in_unit)?;
        let out_unit = function.out_unit.as_ref();
        self.put_tree_if(tried, mentions, at(depth, Site::OutUnit), out_unit)?;
        let forward = &function.forward;
        self.put_tree(tried, mentions, at(depth, Site::Forward), forward)?;
        let inverse = function.inverse.as_ref();
        self.put_tree_if(tried, mentions, at(depth, Site::Inverse), inverse)
    }

    // Appends the mention of the function that an alias names.
    fn put_alias(
        &self,
        tried: &mut TriedKeys,
        mentions: &mut Vec<StoredMention>,
        depth: usize,
        target: &Text,
    ) -> Result<(), AllocError>
        ensures { OnOk result (placed_mention_list self.now.deck.now mentions.new.items
            ≡ placed_mention_list self.now.deck.now mentions.old.items
            ++ placed_mentions self.now.deck.now depth (uses.alias_source_uses target.now)) }
    {
        let word = WordUse::new(target.as_bytes(), WordKind::Inverse);
        self.put_word(tried, mentions, at(depth, Site::AliasTarget), &word)
    }

    // Appends the mentions of the words of a tree, if there is one.
    fn put_tree_if(
        &self,
        tried: &mut TriedKeys,
        mentions: &mut Vec<StoredMention>,
        location: Location,
        tree: Option<&Tree>,
    ) -> Result<(), AllocError>
        ensures { OnOk result (placed_mention_list self.now.deck.now mentions.new.items
            ≡ placed_mention_list self.now.deck.now mentions.old.items
            ++ placed_mentions self.now.deck.now location.depth
            (uses.source_uses_at location.site (eval_tree_words_if (option_map syntax (option_copied tree.entry))))) }
    {
        match tree {
            Some(tree) => self.put_tree(tried, mentions, location, tree),
            None => Ok(()),
        }
    }

    /// Appends the mentions of the words of a tree. The only error is lack of memory.
    pub(crate) fn put_tree(
        &self,
        tried: &mut TriedKeys,
        mentions: &mut Vec<StoredMention>,
        location: Location,
        tree: &Tree,
    ) -> Result<(), AllocError>
        ensures { OnOk result (placed_mention_list self.now.deck.now mentions.new.items
            ≡ placed_mention_list self.now.deck.now mentions.old.items
            ++ placed_mentions self.now.deck.now location.depth
            (uses.source_uses_at location.site (words_in (syntax tree.now)))) }
    {
        let words = words(self.alloc, tree)?;
        self.put_mentions(tried, mentions, location, &words)
    }
}

// Returns a location.
fn at(depth: usize, site: Site) -> Location
    ensures { result ≡ record { depth = depth; site = site } }
{
    Location { depth, site }
}
