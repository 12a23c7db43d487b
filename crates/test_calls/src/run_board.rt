//! Runs of the program over files, input and sinks in memory, with calls that fail.

use crate::escapes::{put_quoted, read_escaped};
use crate::lines::{
    AnswerWriter, Answers, CallFault, meaning_of, put_answers, read_number, split_at_space,
};
use crate::reading::read_whole;
use crate::run_setup::{Outside, Setup};
use std::alloc::{AllocError, Global};
use std::sync::ledger::Ledger;
use units_io::{List, Steps, Text, Texts, Vars};
use units_run::{Status, units_main};

// A call, without its arguments.
#[derive(Clone, Copy)]
enum Call {
    // `file NAME TEXT` adds a file.
    File,
    // `input TEXT` sets the input.
    Input,
    // A call on a number.
    Number(NumberCall),
    // `fail PORT N..` sets the calls that fail.
    Fail,
    // `clear` removes the files, the input and all settings.
    Clear,
    // `run WORD,WORD..` runs the program, and answers with its status and what it wrote on each sink.
    Run,
}

// A call on a number.
#[derive(Clone, Copy)]
enum NumberCall {
    // `blanks N` sets the number of blanks before the input.
    Blanks,
    // `piece N` sets how many bytes the source returns at a time.
    Piece,
    // `room N` sets how many bytes each sink has room for.
    Room,
}

// A kind of calls that can fail.
#[derive(Clone, Copy)]
enum Port {
    Fetch,
    Take,
    Store,
    Out,
    Err,
}

// The words of calls.
const WORDS: &[(&[u8], Call)] = &[
    (b"file", Call::File),
    (b"input", Call::Input),
    (b"blanks", Call::Number(NumberCall::Blanks)),
    (b"piece", Call::Number(NumberCall::Piece)),
    (b"room", Call::Number(NumberCall::Room)),
    (b"fail", Call::Fail),
    (b"clear", Call::Clear),
    (b"run", Call::Run),
];

// The words of calls that can fail.
const PORTS: &[(&[u8], Port)] = &[
    (b"fetch", Port::Fetch),
    (b"take", Port::Take),
    (b"store", Port::Store),
    (b"out", Port::Out),
    (b"err", Port::Err),
];

// What each run finds, and a step counter that nobody reads.
#[derive(Drop)]
struct Board<L: Ledger> {
    setup: Setup,
    steps: Steps<L>,
}

// Returns the answers to calls.
pub(crate) fn run_answers<L: Ledger>(
    alloc: Global,
    steps: Steps<L>,
    lines: &[u8],
) -> Result<Vec<u8>, AllocError> {
    let setup = Setup::new(alloc);
    let mut out = AnswerWriter::new(alloc);
    put_answers(alloc, &mut Board { setup, steps }, lines, &mut out);
    out.into_text()
}

impl<L: Ledger> Answers for Board<L> {
    fn put_answer(
        &mut self,
        alloc: Global,
        line: &[u8],
        out: &mut AnswerWriter,
    ) -> Result<(), CallFault> {
        let (word, arguments) = split_at_space(line);
        match meaning_of(WORDS, word) {
            Some(Call::File) => self.add_file(alloc, arguments),
            Some(Call::Input) => self.set_input(alloc, arguments),
            Some(Call::Number(call)) => self.set_number(call, arguments),
            Some(Call::Fail) => self.set_failures(alloc, arguments),
            Some(Call::Clear) => {
                self.setup = Setup::new(alloc);
                Ok(())
            }
            Some(Call::Run) => Ok(self.put_run(alloc, arguments, out)?),
            None => Err(CallFault::BadCall),
        }
    }
}

impl<L: Ledger> Board<L> {
    // Adds a file.
    fn add_file(&mut self, alloc: Global, arguments: &[u8]) -> Result<(), CallFault> {
        let (name, text) = split_at_space(arguments);
        let bytes = read_escaped(alloc, text)?;
        let name = Text::from_bytes(alloc, name)?;
        let text = Text::from_bytes(alloc, &bytes)?;
        Ok(self.setup.files.set(alloc, name, text)?)
    }

    // Sets the input.
    fn set_input(&mut self, alloc: Global, text: &[u8]) -> Result<(), CallFault> {
        self.setup.input = read_escaped(alloc, text)?;
        Ok(())
    }

    // Sets a number.
    fn set_number(&mut self, call: NumberCall, text: &[u8]) -> Result<(), CallFault> {
        let number = read_number(text)?;
        match call {
            NumberCall::Blanks => self.setup.blanks = number,
            NumberCall::Piece => self.setup.piece = number,
            NumberCall::Room => self.setup.room = number,
        }
        Ok(())
    }

    // Sets the calls of a kind that fail.
    fn set_failures(&mut self, alloc: Global, arguments: &[u8]) -> Result<(), CallFault> {
        let (port, numbers) = split_at_space(arguments);
        let Some(port) = meaning_of(PORTS, port) else {
            return Err(CallFault::BadCall);
        };
        let numbers = read_numbers(alloc, numbers)?;
        let failures = &mut self.setup.failures;
        match port {
            Port::Fetch => failures.fetches = numbers,
            Port::Take => failures.takes = numbers,
            Port::Store => failures.stores = numbers,
            Port::Out => failures.out_puts = numbers,
            Port::Err => failures.err_puts = numbers,
        }
        Ok(())
    }

    // Runs the program, and appends its status and what it wrote.
    fn put_run(
        &mut self,
        alloc: Global,
        words: &[u8],
        out: &mut AnswerWriter,
    ) -> Result<(), AllocError> {
        let mut outside = self.setup.open(alloc)?;
        let words = read_words(alloc, words)?;
        let status = run(alloc, words.as_slice(), &mut outside, &mut self.steps);
        out.put(status_text(status));
        out.put(b" ");
        put_quoted(outside.out.written(), out);
        out.put(b" ");
        put_quoted(outside.err.written(), out);
        out.put(b"\n");
        Ok(())
    }
}

// Reads numbers, each with a space before it except the first.
fn read_numbers(alloc: Global, text: &[u8]) -> Result<Vec<u64>, CallFault> {
    let mut numbers = List::new(alloc);
    for number in text.split(|byte| *byte == b' ') {
        if !number.is_empty() {
            numbers.push(alloc, read_whole(number)?)?;
        }
    }
    Ok(numbers.into_vec())
}

// Reads words, which are separated by commas.
fn read_words(alloc: Global, text: &[u8]) -> Result<Texts, AllocError> {
    let mut words = Texts::new(alloc);
    for word in text.split(|byte| *byte == b',') {
        words.push(alloc, Text::from_bytes(alloc, word)?)?;
    }
    Ok(words)
}

// Runs the program without variables.
fn run<L: Ledger>(
    alloc: Global,
    words: &[Text],
    outside: &mut Outside,
    steps: &mut Steps<L>,
) -> Status {
    units_main(
        alloc,
        words,
        &Vars::new(alloc),
        &mut outside.source,
        &mut outside.out,
        &mut outside.err,
        &mut outside.files,
        steps,
    )
}

// Returns the name of a status.
fn status_text(status: Status) -> &'static [u8] {
    match status {
        Status::Done => b"done",
        Status::Refused => b"refused",
        Status::Usage => b"usage",
        Status::NoFile => b"no file",
        Status::ReadFault => b"read fault",
        Status::WriteFault => b"write fault",
        Status::NoMemory => b"no memory",
        Status::InputTooLong => b"input too long",
    }
}
