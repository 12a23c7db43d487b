//! A live table that calls for replies and reports operate on.

ghost use Rattle.reply.specs.Options.{AreReplyOptionsPrintable};

use crate::choice::{default_options, read_options};
use crate::lines::{AnswerWriter, Answers, CallFault, meaning_of, put_answers, split_at_space};
use live_table::LiveTable;
use quantity::Style;
use reply::{FromValue, Options, Reply, convert_reply, definition_reply, from_value};
use std::alloc::{AllocError, Global};
use std::sync::ledger::Ledger;
use survey::{check_report, conformable_reply, search_report};
use units_io::Steps;

// A call, without its argument.
#[derive(Clone, Copy)]
enum Call {
    // `options WORD..` sets the options for the following calls.
    Options,
    // `convert FROM to TO`.
    Convert,
    // `define FROM`.
    Define,
    // `conformable FROM`: a report on the units that conform.
    Conformable,
    // `search TEXT`.
    Search,
    // `check`.
    Check,
    // `value FROM`: the value of FROM.
    Value,
}

// The words of calls.
const WORDS: &[(&[u8], Call)] = &[
    (b"options", Call::Options),
    (b"convert", Call::Convert),
    (b"define", Call::Define),
    (b"conformable", Call::Conformable),
    (b"search", Call::Search),
    (b"check", Call::Check),
    (b"value", Call::Value),
];

// The state between calls: the table, the options for the following calls, and the steps of queries.
#[derive(Drop)]
struct Board<L: Ledger> {
    live: Box<LiveTable>,
    options: Options,
    steps: Steps<L>,
}

// Returns the answers to a load and to the calls on its table: replies, reports and values. A refused reply, and a fault
// in place of a value or a report, are followed by a line that marks the refusal.
pub(crate) fn reply_answers<L: Ledger>(
    alloc: Global,
    live: Box<LiveTable>,
    steps: Steps<L>,
    calls: &[u8],
) -> Result<Vec<u8>, AllocError> {
    let options = default_options();
    let mut board = Board {
        live,
        options,
        steps,
    };
    let mut out = AnswerWriter::new(alloc);
    out.put(b"ok\n");
    put_answers(alloc, &mut board, calls, &mut out);
    out.into_text()
}

impl<L: Ledger> Answers for Board<L> {
    ghost use Rattle.reply.specs.Options.{AreReplyOptionsPrintable};

    ghost is_ready = { λ board. AreReplyOptionsPrintable board.options };

    fn put_answer(
        &mut self,
        alloc: Global,
        line: &[u8],
        out: &mut AnswerWriter,
    ) -> Result<(), CallFault> {
        let (word, argument) = split_at_space(line);
        let Some(call) = meaning_of(WORDS, word) else {
            return Err(CallFault::BadCall);
        };
        self.put_call(alloc, call, argument, out)
    }
}

impl<L: Ledger> Board<L> {
    // Appends the answer to a call.
    fn put_call(
        &mut self,
        alloc: Global,
        call: Call,
        argument: &[u8],
        out: &mut AnswerWriter,
    ) -> Result<(), CallFault>
        requires { AreReplyOptionsPrintable self.old.options }
        ensures { AreReplyOptionsPrintable self.new.options }
    {
        match call {
            Call::Options => return self.put_options(argument, out),
            Call::Convert => return self.put_conversion(alloc, argument, out),
            Call::Check if argument.is_empty() => self.put_check(alloc, out),
            Call::Check => return Err(CallFault::BadCall),
            Call::Define => self.put_definition(alloc, argument, out),
            Call::Conformable => self.put_conformable(alloc, argument, out),
            Call::Search => self.put_search(alloc, argument, out),
            Call::Value => self.put_value(alloc, argument, out),
        }
        Ok(())
    }

    // Sets the options for the following calls.
    fn put_options(&mut self, words: &[u8], out: &mut AnswerWriter) -> Result<(), CallFault>
        requires { AreReplyOptionsPrintable self.old.options }
        ensures { AreReplyOptionsPrintable self.new.options }
    {
        let Some(options) = read_options(words) else {
            return Err(CallFault::BadCall);
        };
        self.options = options;
        out.put_line(b"ok");
        Ok(())
    }

    // Appends the reply to a conversion.
    fn put_conversion(
        &mut self,
        alloc: Global,
        text: &[u8],
        out: &mut AnswerWriter,
    ) -> Result<(), CallFault>
        requires { AreReplyOptionsPrintable self.old.options }
        ensures { AreReplyOptionsPrintable self.new.options }
    {
        let Some((from, to)) = cut_at_to(text) else {
            return Err(CallFault::BadCall);
        };
        let (live, steps) = (&mut *self.live, &mut self.steps);
        let reply = convert_reply(alloc, live, &self.options, from, to, steps);
        put_reply(reply, out);
        Ok(())
    }

    // Appends the reply to a definition.
    fn put_definition(&mut self, alloc: Global, from: &[u8], out: &mut AnswerWriter)
        requires { AreReplyOptionsPrintable self.old.options }
        ensures { AreReplyOptionsPrintable self.new.options }
    {
        let (live, steps) = (&mut *self.live, &mut self.steps);
        let reply = definition_reply(alloc, live, &self.options, from, steps);
        put_reply(reply, out);
    }

    // Appends the report on the units that conform.
    fn put_conformable(&mut self, alloc: Global, from: &[u8], out: &mut AnswerWriter)
        requires { AreReplyOptionsPrintable self.old.options }
        ensures { AreReplyOptionsPrintable self.new.options }
    {
        let (live, steps) = (&mut *self.live, &mut self.steps);
        let reply = conformable_reply(alloc, live, &self.options, from, steps);
        put_reply(reply, out);
    }

    // Appends the report on a search.
    fn put_search(&self, alloc: Global, text: &[u8], out: &mut AnswerWriter) {
        out.put_text(search_report(alloc, &*self.live, text));
    }

    // Appends the report of the check.
    fn put_check(&mut self, alloc: Global, out: &mut AnswerWriter)
        requires { AreReplyOptionsPrintable self.old.options }
        ensures { AreReplyOptionsPrintable self.new.options }
    {
        let report = check_report(alloc, &mut *self.live, &self.options, &mut self.steps);
        out.put_text(report);
    }

    // Appends the exact value of a text, or its fault as a refused line.
    fn put_value(&mut self, alloc: Global, from: &[u8], out: &mut AnswerWriter)
        requires { AreReplyOptionsPrintable self.old.options }
        ensures { AreReplyOptionsPrintable self.new.options }
    {
        let (live, steps) = (&mut *self.live, &mut self.steps);
        match from_value(alloc, live, &self.options, from, steps) {
            Ok(value) => put_from_value(alloc, &value, out),
            Err(AllocError) => out.leave_out(),
        }
    }
}

// Appends a reply, followed by a line that marks it if it is refused.
fn put_reply(reply: Result<Reply, AllocError>, out: &mut AnswerWriter) {
    match reply {
        Ok(reply) => {
            out.put(reply.text.as_bytes());
            if reply.refused {
                out.put(b"refused\n");
            }
        }
        Err(AllocError) => out.leave_out(),
    }
}

// Appends an exact value, or its fault as a refused line.
fn put_from_value(alloc: Global, value: &FromValue, out: &mut AnswerWriter) {
    match value {
        FromValue::Good(value) => out.put_text(value.show(alloc, Style::Exact)),
        FromValue::Bad(fault) => {
            out.put(fault.as_bytes());
            out.put(b"\nrefused");
        }
    }
    out.put(b"\n");
}

// Splits a text at the first ` to ` into the parts before and after it.
fn cut_at_to(text: &[u8]) -> Option<(&[u8], &[u8])> {
    let at = text
        .windows(4)
        .position(|window| window == b" to ".as_slice())?;
    Some((&text[..at], &text[at + 4..]))
}
