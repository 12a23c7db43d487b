//! The run of the program.

ghost use Rattle.std.specs.Prelude.{IfOk};
ghost use Rattle.command_line.specs.WhyDigits.{HasWhyDigits, HasWhyLineDigits};
ghost use Rattle.reply.specs.Options.{AreReplyOptionsPrintable};

use crate::definitions::{Definitions, load};
use crate::lint::lint;
use crate::output::{Output, OutputFault};
use crate::overlaid_files::OverlaidFiles;
use crate::ports::Ports;
use crate::status::Status;
use crate::stop::Stop;
use crate::version::why_version_text;
use crate::why::{Question, explain};
use crate::writer::Writer;
use command_line::{
    Inquiry, WhyCommandLine, WhyRequest, WordsFault, read_why_words, why_usage_text,
};
use deck::Deck;
use reply::Options;
use std::alloc::Global;
use std::mem;
use std::sync::ledger::Ledger;
use units_io::{Files, Sink, Steps, Text, Vars};

/// Answers the request on the command line over these files, and returns the status of the run. `words` are the words
/// after the name of the program.
pub(crate) fn run<O: Sink, E: Sink, F: Files, L: Ledger>(
    alloc: Global,
    words: &[Text],
    vars: &Vars,
    ports: &mut Ports<O, E, F>,
    steps: Steps<L>,
) -> Status {
    match read_line(alloc, words, &mut ports.files) {
        Ok(WhyCommandLine::Version) => {
            put_text(alloc, &mut ports.out, why_version_text(), Status::Done)
        }
        Ok(WhyCommandLine::Request(request)) => run_request(alloc, &request, vars, ports, steps),
        Err(WordsFault::Usage) => put_text(alloc, &mut ports.err, why_usage_text(), Status::Usage),
        Err(WordsFault::OutOfMemory) => Status::NoMemory,
    }
}

// Reads the command line in the words, and puts the overlays of its request over the files.
fn read_line<F: Files>(
    alloc: Global,
    words: &[Text],
    files: &mut OverlaidFiles<F>,
) -> Result<WhyCommandLine, WordsFault>
    ensures { IfOk result HasWhyLineDigits }
{
    let line = read_why_words(alloc, words)?;
    if let WhyCommandLine::Request(request) = &line {
        files.put_overlays(alloc, request.overlays.as_slice())?;
    }
    Ok(line)
}

// Writes a text. Returns `status` if it is written.
fn put_text<S: Sink>(alloc: Global, output: &mut Output<S>, text: &[u8], status: Status) -> Status {
    match output.put(alloc, text) {
        Ok(()) => status,
        Err(fault) => fault.status(),
    }
}

fn run_request<O: Sink, E: Sink, F: Files, L: Ledger>(
    alloc: Global,
    request: &WhyRequest,
    vars: &Vars,
    ports: &mut Ports<O, E, F>,
    steps: Steps<L>,
) -> Status
    requires { HasWhyDigits request.now }
{
    let mut definitions = match load(alloc, &mut ports.files, request, vars, steps) {
        Ok(definitions) => definitions,
        Err(stop) => return report_stop(alloc, &mut ports.err, request, stop),
    };
    let answer = answer(&mut definitions, request, ports);
    // The process ends next, and freeing the table costs more than its last query.
    mem::forget(definitions);
    match answer {
        Ok(true) => Status::Refused,
        Ok(false) => Status::Done,
        Err(fault) => fault.status(),
    }
}

// Reports why a run has no definitions.
fn report_stop<E: Sink>(
    alloc: Global,
    err: &mut Output<E>,
    request: &WhyRequest,
    stop: Stop,
) -> Status {
    let Some(words) = stop.words() else {
        return stop.status();
    };
    let mut line = Writer::new(alloc);
    line.put(words);
    if let Some(name) = &request.file {
        line.put(name.as_bytes());
    }
    line.put_byte(b'\n');
    match line.send(err) {
        Ok(()) => stop.status(),
        Err(fault) => fault.status(),
    }
}

// Writes the answer to a request, error messages first. Returns whether the request is refused.
fn answer<O: Sink, E: Sink, F: Files, L: Ledger>(
    definitions: &mut Definitions<L>,
    request: &WhyRequest,
    ports: &mut Ports<O, E, F>,
) -> Result<bool, OutputFault>
    requires { HasWhyDigits request.now }
{
    let options = options_of(request);
    messages(definitions, &request.inquiry).send(&mut ports.err)?;
    match &request.inquiry {
        Inquiry::Value(from, to) => {
            let question = question_of(from, to, request.json);
            explain(&mut ports.out, definitions, &options, question)
        }
        Inquiry::Lint(asked) => {
            let files = &mut ports.files;
            let findings = lint(definitions, &options, *asked, request.json, files)?;
            findings.send(&mut ports.out)?;
            Ok(!findings.is_empty())
        }
    }
}

// Returns the error messages of a run. The findings of `--lint` contain the notices of the load.
fn messages<L: Ledger>(definitions: &Definitions<L>, inquiry: &Inquiry) -> Writer {
    let mut out = Writer::new(definitions.evaluator.alloc);
    if let Inquiry::Value(_, _) = inquiry {
        put_notices(&mut out, definitions.evaluator.deck());
    }
    if definitions.names.is_none() {
        out.put(b"units-why: a file changed while it was read, so no line has a place\n");
    }
    out
}

// Appends the notices of the load, one per line.
fn put_notices(out: &mut Writer, deck: &Deck) {
    for notice in deck.notices().as_slice() {
        out.put(notice.as_bytes());
        out.put_byte(b'\n');
    }
}

fn question_of<'a>(from: &'a Text, to: &'a Option<Text>, json: bool) -> Question<'a> {
    let to = match to {
        Some(to) => to.as_bytes(),
        None => b"".as_slice(),
    };
    Question {
        from: from.as_bytes(),
        to,
        json,
    }
}

// Returns the options that values are written with.
fn options_of(request: &WhyRequest) -> Options
    requires { HasWhyDigits request.now }
    ensures { AreReplyOptionsPrintable result }
{
    Options {
        digits: request.digits.unwrap_or(8),
        exact: request.exact,
        strict: false,
        one_line: false,
        compact: false,
        quiet: false,
        round: false,
        verbose: false,
    }
}
