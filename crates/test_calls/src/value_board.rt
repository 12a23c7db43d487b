//! A live table that queries and edits operate on.

use crate::edit_calls::{Edit, edit_text, settings_of};
use crate::lines::{
    AnswerWriter, Answers, CallFault, key_in, put_answers, read_change, split_at_space,
};
use crate::value_calls::{ValueCall, value_call};
use crate::value_texts::{put_counts, put_inverse, put_value};
use deck::{DeckFault, Splice};
use live_table::LiveTable;
use std::alloc::{AllocError, Global};
use std::mem;
use std::sync::ledger::Ledger;
use units_io::{Files, Steps};

// The state between calls: the files to append, the table, the splice that undoes the last one, if there is one, and
// the steps of queries.
#[derive(Drop)]
struct Board<F, L: Ledger> {
    files: F,
    live: Box<LiveTable>,
    back: Option<Splice>,
    steps: Steps<L>,
}

// Returns the answers to a load and to the calls on its table.
pub(crate) fn value_answers<F: Files + Drop, L: Ledger>(
    alloc: Global,
    files: F,
    live: Box<LiveTable>,
    steps: Steps<L>,
    calls: &[u8],
) -> Result<Vec<u8>, AllocError> {
    let mut board = Board {
        files,
        live,
        back: None,
        steps,
    };
    let mut out = AnswerWriter::new(alloc);
    out.put(b"ok\n");
    put_answers(alloc, &mut board, calls, &mut out);
    // The process ends next, and freeing the table costs more than its last query.
    mem::forget(board);
    out.into_text()
}

impl<F: Files + Drop, L: Ledger> Answers for Board<F, L> {
    fn put_answer(
        &mut self,
        alloc: Global,
        line: &[u8],
        out: &mut AnswerWriter,
    ) -> Result<(), CallFault> {
        let (word, argument) = split_at_space(line);
        let Some(call) = value_call(word) else {
            return Err(CallFault::BadCall);
        };
        self.put_call(alloc, call, argument, out)?;
        out.put(b"\n");
        Ok(())
    }
}

impl<F: Files + Drop, L: Ledger> Board<F, L> {
    // Appends the answer to a call.
    fn put_call(
        &mut self,
        alloc: Global,
        call: ValueCall,
        argument: &[u8],
        out: &mut AnswerWriter,
    ) -> Result<(), CallFault> {
        match call {
            ValueCall::Splice => return self.put_splice(alloc, argument, out),
            ValueCall::Value => put_value(alloc, &mut *self.live, argument, &mut self.steps, out),
            ValueCall::Unapply => put_inverse(
                alloc,
                &mut *self.live,
                argument,
                &mut self.steps,
                out,
            ),
            ValueCall::Settle => self.put_settled(alloc, out),
            ValueCall::Counts => put_counts(&*self.live, out),
            ValueCall::Edit(edit) => self.put_edit(alloc, edit, argument, out),
            ValueCall::Back => self.put_back(alloc, out),
        }
        Ok(())
    }

    // Queries every name.
    fn put_settled(&mut self, alloc: Global, out: &mut AnswerWriter) {
        out.note(self.live.settle_all(alloc, &mut self.steps));
        out.put(b"ok");
    }

    // Makes an edit.
    fn put_edit(&mut self, alloc: Global, edit: Edit, argument: &[u8], out: &mut AnswerWriter) {
        match edit {
            Edit::DropLast => put_drop(alloc, &mut *self.live, argument, out),
            Edit::Define => put_made(self.live.define(alloc, argument), out),
            Edit::Switch => put_switch(alloc, &mut *self.live, argument, out),
            Edit::Append => put_made(self.live.append(alloc, &mut self.files, argument), out),
        }
    }

    // Reads a splice, and makes it if it is allowed.
    fn put_splice(
        &mut self,
        alloc: Global,
        argument: &[u8],
        out: &mut AnswerWriter,
    ) -> Result<(), CallFault> {
        let splice = read_splice(alloc, argument, &*self.live)?;
        self.back = None;
        self.put_spliced(alloc, splice, out);
        Ok(())
    }

    // Undoes the last splice.
    fn put_back(&mut self, alloc: Global, out: &mut AnswerWriter) {
        match self.back.take() {
            Some(splice) => self.put_spliced(alloc, splice, out),
            None => out.put(b"no splice"),
        }
    }

    // Makes a splice if it is allowed, and appends whether it was made.
    fn put_spliced(&mut self, alloc: Global, splice: Splice, out: &mut AnswerWriter) {
        match self.splice(alloc, splice) {
            Ok(text) => out.put(text),
            Err(AllocError) => out.leave_out(),
        }
    }

    // Makes a splice if it is allowed, and stores the splice that undoes it, or the splice itself if memory runs out.
    fn splice(&mut self, alloc: Global, splice: Splice) -> Result<&'static [u8], AllocError> {
        if !self.live.deck().can_splice(alloc, &splice)? {
            return Ok(b"no such splice");
        }
        match self.live.splice(alloc, splice) {
            Ok(undo) => {
                self.back = Some(undo);
                Ok(b"ok")
            }
            Err((refused, _)) => {
                self.back = Some(refused);
                Ok(b"out of memory")
            }
        }
    }
}

// Drops the last line of the key that `text` names.
fn put_drop(alloc: Global, live: &mut LiveTable, text: &[u8], out: &mut AnswerWriter) {
    match key_in(alloc, text) {
        Ok(Some(key)) => put_made(live.drop_last(alloc, &key), out),
        Ok(None) => out.put(b"not a key"),
        Err(AllocError) => out.leave_out(),
    }
}

// Puts a locale in force.
fn put_switch(alloc: Global, live: &mut LiveTable, locale: &[u8], out: &mut AnswerWriter) {
    match settings_of(alloc, locale) {
        Ok(settings) => put_made(live.switch(alloc, settings), out),
        Err(AllocError) => out.leave_out(),
    }
}

// Appends whether an edit was made.
fn put_made(made: Result<(), DeckFault>, out: &mut AnswerWriter) {
    out.put(edit_text(&made));
}

// Reads a splice under the settings of the table.
fn read_splice(alloc: Global, text: &[u8], live: &LiveTable) -> Result<Splice, CallFault> {
    let change = read_change(alloc, text)?;
    let settings = live.deck().settings().copy(alloc)?;
    Ok(Splice {
        at: change.at,
        cut: change.cut,
        put: change.put,
        settings,
    })
}
