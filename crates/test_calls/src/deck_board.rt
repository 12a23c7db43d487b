//! A deck that calls operate on.

use crate::deck_calls::{Call, Edit, KeyQuery, Load, Query, Setting, read_call};
use crate::deck_queries::{put_key_query, put_query};
use crate::deck_texts::{put_changes, put_fault};
use crate::edit_calls::settings_of;
use crate::lines::{
    AnswerWriter, Answers, CallFault, key_in, put_answers, read_change, split_at_space,
};
use deck::{Deck, DeckFault, Settings, Splice};
use def_entry::Keys;
use std::alloc::{AllocError, Global};
use std::mem;
use units_io::{Files, Text, Vars};

// The state between calls: the files to load, the deck, a snapshot of an earlier state of it, the inverse of the last
// splice, each if there is one, and the settings for the following loads and edits.
#[derive(Drop)]
struct Board<F> {
    files: F,
    deck: Option<Deck>,
    snapshot: Option<Deck>,
    inverse: Option<Splice>,
    settings: Settings,
}

// Returns the answers to calls over files.
pub(crate) fn deck_answers<F: Files + Drop>(
    alloc: Global,
    files: F,
    lines: &[u8],
) -> Result<Vec<u8>, AllocError> {
    let settings = settings_of(alloc, b"en_US")?;
    let mut board = Board {
        files,
        deck: None,
        snapshot: None,
        inverse: None,
        settings,
    };
    let mut out = AnswerWriter::new(alloc);
    put_answers(alloc, &mut board, lines, &mut out);
    // The process ends next, so the decks need not be freed.
    mem::forget(board);
    out.into_text()
}

impl<F: Files + Drop> Answers for Board<F> {
    fn put_answer(
        &mut self,
        alloc: Global,
        line: &[u8],
        out: &mut AnswerWriter,
    ) -> Result<(), CallFault> {
        let Some((call, argument)) = read_call(line) else {
            return Err(CallFault::BadCall);
        };
        self.put_call(alloc, call, argument, out)?;
        out.put(b"\n");
        Ok(())
    }
}

impl<F: Files + Drop> Board<F> {
    // Appends the answer to a call.
    fn put_call(
        &mut self,
        alloc: Global,
        call: Call,
        argument: &[u8],
        out: &mut AnswerWriter,
    ) -> Result<(), CallFault> {
        match call {
            Call::Splice => return self.put_splice(alloc, argument, out),
            Call::Setting(setting) => self.put_setting(alloc, setting, argument, out),
            Call::Load(load) => self.put_load(alloc, load, argument, out),
            Call::Snapshot => self.put_snapshot(alloc, out),
            Call::Edit(edit) => self.put_edit(alloc, edit, argument, out),
            Call::Back => self.put_back(alloc, out),
            Call::Query(query) => self.put_query(alloc, query, out),
            Call::KeyQuery(query) => self.put_key_query(alloc, query, argument, out),
        }
        Ok(())
    }

    // Changes the settings for the following loads and edits, and appends that this is done.
    fn put_setting(
        &mut self,
        alloc: Global,
        setting: Setting,
        argument: &[u8],
        out: &mut AnswerWriter,
    ) {
        out.note(self.set(alloc, setting, argument));
        out.put(b"ok");
    }

    // Changes the settings for the following loads and edits.
    fn set(&mut self, alloc: Global, setting: Setting, argument: &[u8]) -> Result<(), AllocError> {
        match setting {
            Setting::Locale => self.settings.locale = Text::from_bytes(alloc, argument)?,
            Setting::Variable => {
                let (name, value) = split_at_space(argument);
                set_variable(alloc, &mut self.settings.vars, name, value)?;
            }
        }
        Ok(())
    }

    // Loads a deck, or appends why the load failed.
    fn put_load(&mut self, alloc: Global, load: Load, name: &[u8], out: &mut AnswerWriter) {
        match self.load(alloc, load, name) {
            Ok(deck) => {
                self.deck = Some(deck);
                out.put(b"ok");
            }
            Err(fault) => put_fault(alloc, out, fault),
        }
    }

    // Loads a deck.
    fn load(&mut self, alloc: Global, load: Load, name: &[u8]) -> Result<Deck, DeckFault> {
        let settings = self.settings.copy(alloc)?;
        match load {
            Load::File => Deck::load(alloc, &mut self.files, name, settings),
            Load::Text => deck_of_text(alloc, &mut self.files, name, settings),
        }
    }

    // Stores the deck for comparisons.
    fn put_snapshot(&mut self, alloc: Global, out: &mut AnswerWriter) {
        let Some(deck) = &self.deck else {
            return put_lack_of_deck(out);
        };
        match deck.snapshot(alloc) {
            Ok(snapshot) => {
                self.snapshot = Some(snapshot);
                out.put(b"ok");
            }
            Err(AllocError) => out.leave_out(),
        }
    }

    // Makes an edit.
    fn put_edit(&mut self, alloc: Global, edit: Edit, argument: &[u8], out: &mut AnswerWriter) {
        let Some(deck) = &mut self.deck else {
            return put_lack_of_deck(out);
        };
        let outcome = match edit {
            Edit::Define => deck.define(alloc, argument),
            Edit::Append => deck.append(alloc, &mut self.files, argument),
            Edit::Switch => switch_to(alloc, deck, &self.settings),
            Edit::DropLast => return put_drop(alloc, deck, argument, out),
        };
        put_outcome(alloc, out, outcome);
    }

    // Reads a splice, and makes it if it is allowed.
    fn put_splice(
        &mut self,
        alloc: Global,
        argument: &[u8],
        out: &mut AnswerWriter,
    ) -> Result<(), CallFault> {
        let change = self.read_splice(alloc, argument)?;
        self.inverse = None;
        self.put_spliced(alloc, change, out);
        Ok(())
    }

    // Reads a splice under the settings for edits.
    fn read_splice(&self, alloc: Global, text: &[u8]) -> Result<Splice, CallFault> {
        let change = read_change(alloc, text)?;
        let settings = self.settings.copy(alloc)?;
        Ok(Splice {
            at: change.at,
            cut: change.cut,
            put: change.put,
            settings,
        })
    }

    // Undoes the last splice.
    fn put_back(&mut self, alloc: Global, out: &mut AnswerWriter) {
        match self.inverse.take() {
            Some(change) => self.put_spliced(alloc, change, out),
            None if self.deck.is_none() => put_lack_of_deck(out),
            None => out.put(b"no splice"),
        }
    }

    // Makes a splice if it is allowed, and appends the keys that it changed.
    fn put_spliced(&mut self, alloc: Global, change: Splice, out: &mut AnswerWriter) {
        let Some(deck) = &mut self.deck else {
            return put_lack_of_deck(out);
        };
        match make_splice(alloc, deck, change, &mut self.inverse) {
            Ok(Some(keys)) => put_changes(out, &keys),
            Ok(None) => out.put(b"no such splice"),
            Err(AllocError) => out.leave_out(),
        }
    }

    // Appends the answer to a query about the deck.
    fn put_query(&self, alloc: Global, query: Query, out: &mut AnswerWriter) {
        match &self.deck {
            Some(deck) => put_query(alloc, deck, &self.snapshot, query, out),
            None => put_lack_of_deck(out),
        }
    }

    // Appends the answer to a query about the key that `text` names.
    fn put_key_query(&self, alloc: Global, query: KeyQuery, text: &[u8], out: &mut AnswerWriter) {
        match &self.deck {
            Some(deck) => put_key_query(alloc, deck, query, text, out),
            None => put_lack_of_deck(out),
        }
    }
}

// Appends that there is no deck.
fn put_lack_of_deck(out: &mut AnswerWriter) {
    out.put(b"no deck");
}

// Gives a variable a value.
fn set_variable(
    alloc: Global,
    vars: &mut Vars,
    name: &[u8],
    value: &[u8],
) -> Result<(), AllocError> {
    let name = Text::from_bytes(alloc, name)?;
    let value = Text::from_bytes(alloc, value)?;
    vars.set(alloc, name, value)
}

// Returns the deck of the text of a single file. Its includes count as absent files.
fn deck_of_text<F: Files>(
    alloc: Global,
    files: &mut F,
    name: &[u8],
    settings: Settings,
) -> Result<Deck, DeckFault> {
    let text = files.fetch(alloc, name)?;
    Deck::from_text(alloc, text.as_bytes(), name, settings)
}

// Makes a splice and stores its inverse. Returns the keys that it changed, or `None` if it is not allowed.
fn make_splice(
    alloc: Global,
    deck: &mut Deck,
    change: Splice,
    inverse: &mut Option<Splice>,
) -> Result<Option<Keys>, AllocError> {
    if !deck.can_splice(alloc, &change)? {
        return Ok(None);
    }
    match deck.splice(alloc, change) {
        Ok((keys, back)) => {
            *inverse = Some(back);
            Ok(Some(keys))
        }
        Err((_, error)) => Err(error),
    }
}

// Makes settings take effect.
fn switch_to(alloc: Global, deck: &mut Deck, settings: &Settings) -> Result<Keys, DeckFault> {
    let settings = settings.copy(alloc)?;
    deck.switch(alloc, settings)
}

// Drops the last line of the key that `text` names.
fn put_drop(alloc: Global, deck: &mut Deck, text: &[u8], out: &mut AnswerWriter) {
    match key_in(alloc, text) {
        Ok(Some(key)) => put_outcome(alloc, out, deck.drop_last(alloc, &key)),
        Ok(None) => out.put(b"not a key"),
        Err(AllocError) => out.leave_out(),
    }
}

// Appends the keys that an edit changed, or why it was refused.
fn put_outcome(alloc: Global, out: &mut AnswerWriter, outcome: Result<Keys, DeckFault>) {
    match outcome {
        Ok(keys) => put_changes(out, &keys),
        Err(fault) => put_fault(alloc, out, fault),
    }
}
