//! Edits of the deck, which forget the outcomes that they affect.

ghost use Rattle.std.specs.Prelude.{◌≡◌, Ok, true, IfErr, OnOk, OnErr};
ghost use Rattle.def_lines.specs.Blanks.{trimmed_of_blanks};
ghost use Rattle.deck_lines.specs.Transcripts.{IsLoad, files_model};
ghost use Rattle.deck.specs.Edits as deck_edit;
ghost use Rattle.deck.specs.FileLoads as loading;
ghost use Rattle.deck.specs.Splices.{CanSpliceDeck};
ghost use Rattle.deck.specs.LineRemoval.{CanUndefineDeckLine};
ghost use Rattle.deck.specs.declared.fault.DeckFault.TheVariants.{OutOfMemory};
ghost use Rattle.live_table.specs.Calls.{IsAcceptedLiveEdit};
ghost use Rattle.live_table.specs.Edits as edit;

use super::LiveTable;
use crate::edge_creation::link_waiting;
use crate::invalidation::forget_changed;
use deck::{DeckFault, Settings, Splice};
use def_entry::Key;
use std::alloc::{AllocError, Global};
use units_io::{Files, Text};

impl LiveTable {
    /// Appends a line that defines a key to the deck, as `Deck::define`, and forgets the outcomes that this affects. On
    /// failure, lack of memory included, nothing changes.
    pub fn define(&mut self, alloc: Global, line: &[u8]) -> Result<(), DeckFault>
        ensures { edit.IsLiveEditOf (deck_edit.deck_after_defining (trimmed_of_blanks line.now) self.old.deck) self.old
            self.new result }
    {
        match self.define_shadowing(alloc, line) {
            Ok(_) => Ok(()),
            Err(fault) => Err(fault),
        }
    }

    /// Does the same as `define`, and returns the place of the previous last active line of the key, if there was one.
    pub fn define_shadowing(
        &mut self,
        alloc: Global,
        line: &[u8],
    ) -> Result<Option<usize>, DeckFault>
        ensures { edit.IsLiveTableDefinedOver (deck_edit.deck_after_defining (trimmed_of_blanks line.now) self.old.deck)
            (trimmed_of_blanks line.now) self.old self.new result }
    {
        link_waiting(alloc, &self.deck, &self.nodes, &mut self.edges)?;
        let (keys, covered) = self.deck.define_shadowing(alloc, line)?;
        forget_changed(
            alloc,
            &self.deck,
            &mut self.nodes,
            &mut self.edges,
            &mut self.explored,
            &keys,
        );
        Ok(covered)
    }

    /// Removes the last line, which defines a key, as `Deck::undefine`, forgets the outcomes that this affects, and
    /// returns the text of the line. The only error is lack of memory, which changes nothing.
    pub fn undefine(&mut self, alloc: Global, uncovered: Option<usize>) -> Result<Text, AllocError>
        requires { CanUndefineDeckLine uncovered self.old.deck }
        ensures { edit.IsLiveLineUndefined self.old self.new result }
    {
        link_waiting(alloc, &self.deck, &self.nodes, &mut self.edges)?;
        let (keys, text) = self.deck.undefine(alloc, uncovered)?;
        forget_changed(
            alloc,
            &self.deck,
            &mut self.nodes,
            &mut self.edges,
            &mut self.explored,
            &keys,
        );
        Ok(text)
    }

    /// Removes the last active line of a key, as `Deck::drop_last`, and forgets the outcomes that this affects. On
    /// failure, lack of memory included, nothing changes.
    pub fn drop_last(&mut self, alloc: Global, key: &Key) -> Result<(), DeckFault>
        ensures { edit.IsLiveEditOf (deck_edit.deck_after_dropping key.now self.old.deck) self.old self.new result }
    {
        link_waiting(alloc, &self.deck, &self.nodes, &mut self.edges)?;
        let keys = self.deck.drop_last(alloc, key)?;
        forget_changed(
            alloc,
            &self.deck,
            &mut self.nodes,
            &mut self.edges,
            &mut self.explored,
            &keys,
        );
        Ok(())
    }

    /// Puts other settings in force, as `Deck::switch`, and forgets the outcomes that this affects. The only error is
    /// lack of memory, which changes nothing.
    pub fn switch(&mut self, alloc: Global, settings: Settings) -> Result<(), DeckFault>
        ensures { edit.IsLiveEditOf (Ok (deck_edit.deck_after_switching settings self.old.deck)) self.old self.new
            result }
    {
        link_waiting(alloc, &self.deck, &self.nodes, &mut self.edges)?;
        let keys = self.deck.switch(alloc, settings)?;
        forget_changed(
            alloc,
            &self.deck,
            &mut self.nodes,
            &mut self.edges,
            &mut self.explored,
            &keys,
        );
        Ok(())
    }

    /// Appends the deck of a file, as `Deck::append`, and forgets the outcomes that this affects. On failure, a failed
    /// fetch and lack of memory included, nothing changes.
    pub fn append<F: Files>(
        &mut self,
        alloc: Global,
        files: &mut F,
        name: &[u8],
    ) -> Result<(), DeckFault>
        ensures ok { OnOk result (IsAcceptedLiveEdit self.old self.new) }
        ensures settings { self.new.deck.settings ≡ self.old.deck.settings }
        ensures err { OnErr result (self.new ≡ self.old) }
        ensures answers { IfErr result (λ fault. loading.is_deck_load_fault fault ≡ true) }
        ensures kept { F.files files.new ≡ F.files files.old }
        ensures stores { F.store_faults files.new ≡ F.store_faults files.old }
        ensures loads { IsLoad (files_model F.files F.faults F.is_fetch) files.old files.new OutOfMemory
            (loading.deck_load_of_name name.now (loading.deck_excerpt_of_lines self.old.deck.lines))
            (λ _. loading.excerpt_of_deck self.new.deck) result }
    {
        link_waiting(alloc, &self.deck, &self.nodes, &mut self.edges)?;
        let keys = self.deck.append(alloc, files, name)?;
        forget_changed(
            alloc,
            &self.deck,
            &mut self.nodes,
            &mut self.edges,
            &mut self.explored,
            &keys,
        );
        Ok(())
    }

    /// Replaces some lines by others, as `Deck::splice`, forgets the outcomes that this affects, and returns the splice
    /// that undoes the change. The only error is lack of memory, which hands the splice back and changes nothing.
    pub fn splice(&mut self, alloc: Global, change: Splice) -> Result<Splice, (Splice, AllocError)>
        requires { CanSpliceDeck change self.old.deck }
        ensures { edit.IsLiveSpliceOf change self.old self.new result }
    {
        if let Err(fault) = link_waiting(alloc, &self.deck, &self.nodes, &mut self.edges) {
            return Err((change, fault));
        }
        let (keys, undo) = self.deck.splice(alloc, change)?;
        forget_changed(
            alloc,
            &self.deck,
            &mut self.nodes,
            &mut self.edges,
            &mut self.explored,
            &keys,
        );
        Ok(undo)
    }
}
