//! A live table, and the history of its edits, that calls operate on.

use crate::edit_calls::{Edit, edit_text, settings_of};
use crate::history_texts::{put_lines, put_value, undone_text};
use crate::lines::{
    AnswerWriter, Answers, CallFault, key_in, meaning_of, put_answers, split_at_space,
};
use edit_history::History;
use live_table::LiveTable;
use std::alloc::{AllocError, Global};
use std::sync::ledger::Ledger;
use units_io::{Files, Steps};

// A call, without its argument.
#[derive(Clone, Copy)]
enum Call {
    // `value EXPRESSION`.
    Value,
    // `lines`: the lines of the deck.
    Lines,
    // An edit.
    Edit(Edit),
    // `undo`.
    Undo,
    // `redo`.
    Redo,
}

// The words of calls.
const WORDS: &[(&[u8], Call)] = &[
    (b"value", Call::Value),
    (b"lines", Call::Lines),
    (b"define", Call::Edit(Edit::Define)),
    (b"drop", Call::Edit(Edit::DropLast)),
    (b"switch", Call::Edit(Edit::Switch)),
    (b"append", Call::Edit(Edit::Append)),
    (b"undo", Call::Undo),
    (b"redo", Call::Redo),
];

// The state between calls: the files to append, the table, its history, and the steps of queries.
#[derive(Drop)]
struct Board<F, L: Ledger> {
    files: F,
    live: Box<LiveTable>,
    history: History,
    steps: Steps<L>,
}

// Returns the answers to a load and to the calls on its table.
pub(crate) fn history_answers<F: Files + Drop, L: Ledger>(
    alloc: Global,
    files: F,
    live: Box<LiveTable>,
    steps: Steps<L>,
    calls: &[u8],
) -> Result<Vec<u8>, AllocError> {
    let history = History::new(alloc);
    let mut board = Board {
        files,
        live,
        history,
        steps,
    };
    let mut out = AnswerWriter::new(alloc);
    out.put(b"ok\n");
    put_answers(alloc, &mut board, calls, &mut out);
    out.into_text()
}

impl<F: Files + Drop, L: Ledger> Answers for Board<F, L> {
    ghost use Rattle.edit_history.specs.Histories.{IsHistoryOf};

    ghost is_ready = { λ board. IsHistoryOf board.history board.live.value.deck };

    fn put_answer(
        &mut self,
        alloc: Global,
        line: &[u8],
        out: &mut AnswerWriter,
    ) -> Result<(), CallFault> {
        let (word, argument) = split_at_space(line);
        match meaning_of(WORDS, word) {
            Some(call) => self.put_call(alloc, call, argument, out),
            None => out.put(b"no call"),
        }
        out.put(b"\n");
        Ok(())
    }
}

impl<F: Files + Drop, L: Ledger> Board<F, L> {
    ghost use Rattle.edit_history.specs.Histories.{IsHistoryOf};

    // Appends the answer to a call.
    fn put_call(&mut self, alloc: Global, call: Call, argument: &[u8], out: &mut AnswerWriter)
        requires { IsHistoryOf self.old.history self.old.live.value.deck }
        ensures { IsHistoryOf self.new.history self.new.live.value.deck }
    {
        match call {
            Call::Value => put_value(alloc, &mut *self.live, argument, &mut self.steps, out),
            Call::Lines => put_lines(&*self.live, out),
            Call::Edit(edit) => self.put_edit(alloc, edit, argument, out),
            Call::Undo => self.put_undone(alloc, out),
            Call::Redo => self.put_redone(alloc, out),
        }
    }

    // Makes an edit.
    fn put_edit(&mut self, alloc: Global, edit: Edit, argument: &[u8], out: &mut AnswerWriter)
        requires { IsHistoryOf self.old.history self.old.live.value.deck }
        ensures { IsHistoryOf self.new.history self.new.live.value.deck }
    {
        let made = match edit {
            Edit::Define => self.history.define(alloc, &mut *self.live, argument),
            Edit::DropLast => return self.put_drop(alloc, argument, out),
            Edit::Switch => return self.put_switch(alloc, argument, out),
            Edit::Append => self
                .history
                .append(alloc, &mut *self.live, &mut self.files, argument),
        };
        out.put(edit_text(&made));
    }

    // Puts a locale in force.
    fn put_switch(&mut self, alloc: Global, locale: &[u8], out: &mut AnswerWriter)
        requires { IsHistoryOf self.old.history self.old.live.value.deck }
        ensures { IsHistoryOf self.new.history self.new.live.value.deck }
    {
        match settings_of(alloc, locale) {
            Ok(settings) => {
                let made = self.history.switch(alloc, &mut *self.live, settings);
                out.put(edit_text(&made));
            }
            Err(AllocError) => out.leave_out(),
        }
    }

    // Drops the last line of the key that `text` names.
    fn put_drop(&mut self, alloc: Global, text: &[u8], out: &mut AnswerWriter)
        requires { IsHistoryOf self.old.history self.old.live.value.deck }
        ensures { IsHistoryOf self.new.history self.new.live.value.deck }
    {
        match key_in(alloc, text) {
            Ok(Some(key)) => {
                let made = self.history.drop_last(alloc, &mut *self.live, &key);
                out.put(edit_text(&made));
            }
            Ok(None) => out.put(b"no key"),
            Err(AllocError) => out.leave_out(),
        }
    }

    // Undoes the last edit.
    fn put_undone(&mut self, alloc: Global, out: &mut AnswerWriter)
        requires { IsHistoryOf self.old.history self.old.live.value.deck }
        ensures { IsHistoryOf self.new.history self.new.live.value.deck }
    {
        let undone = self.history.undo(alloc, &mut *self.live);
        out.put(undone_text(undone));
    }

    // Redoes the last edit that was undone.
    fn put_redone(&mut self, alloc: Global, out: &mut AnswerWriter)
        requires { IsHistoryOf self.old.history self.old.live.value.deck }
        ensures { IsHistoryOf self.new.history self.new.live.value.deck }
    {
        let redone = self.history.redo(alloc, &mut *self.live);
        out.put(undone_text(redone));
    }
}
