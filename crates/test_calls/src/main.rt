//! Reads calls of the libraries from standard input and writes their answers to standard output. The first word of the
//! command line names the kind of the calls. Calls that load a file read it from the file system.
#![tactic(auto)]

mod amount_calls;
mod amount_reading;
mod amount_text;
mod amounts;
mod choice;
mod deck_board;
mod deck_calls;
mod deck_queries;
mod deck_texts;
mod edge_board;
mod edit_calls;
mod entry_report;
mod entry_text;
mod escapes;
mod hindrance;
mod history_board;
mod history_texts;
mod kind;
mod lines;
mod lists;
mod lookup;
mod marking;
mod notation;
mod number_calls;
mod numbers;
mod point_tables;
mod reading;
mod reply_board;
mod run_board;
mod run_setup;
mod stateless_kind;
mod stream_board;
mod table_kind;
mod text_calls;
mod texts;
mod value_board;
mod value_calls;
mod value_texts;

ghost use Rattle.std.specs.Prelude.{◌≡◌, ◌<◌};

use kind::{Kind, answers_to, read_kind};
use lines::{first_word, read_all, refuse_kind, write_all};
use std::alloc::AllocError;
use std::io;
use std::marker::Brand;
use std::process::ExitCode;
use std::sync::ledger::{Blank, Ledger};
use units_io::Steps;

// Returns the answers to the lines, with a step counter that nobody reads.
fn answers_on<L: Ledger>(
    rt: HostRuntime,
    kind: Kind,
    lines: &[u8],
    blank: Blank,
) -> Result<Vec<u8>, AllocError>
    requires name { blank.name ≡ L.name }
    requires parts { blank.parts ≡ L.parts }
    requires some { 0 < blank.parts }
{
    let steps: Steps<L> = Steps::new(blank);
    answers_to(rt, steps, kind, lines)
}

fn main(rt: HostRuntime) -> io::Result<ExitCode> {
    let alloc = rt.alloc();
    let name = first_word(&rt, alloc)?;
    let Some(kind) = read_kind(&name) else {
        let kinds =
            b"numbers, amounts, texts, entries, decks, edges, values, history, answers, runs and streams";
        return refuse_kind(&mut rt.stderr(), b"test_calls", &name, kinds);
    };
    let lines = read_all(alloc, &mut rt.reader())?;
    let mut output = io::writer(&rt);
    let answers = answers_on::<Brand>(rt, kind, &lines, Blank::new(1))?;
    write_all(&mut output, &answers)
}
