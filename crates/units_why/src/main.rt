//! Reports the definitions that a value comes from, with their files and lines, and the faults in definitions.
#![tactic(auto)]

mod aliases;
mod ambiguous;
mod call_trace;
mod callee;
mod captures;
mod decimal;
mod definitions;
mod entries;
mod evaluator;
mod fault_step;
mod finding;
mod hidden;
mod interval;
mod json;
mod key_copy;
mod line_names;
mod lint;
mod mark;
mod notice;
mod notice_report;
mod open_calls;
mod open_file;
mod outcome;
mod output;
mod overlaid_files;
mod path;
mod places;
mod plain_name;
mod ports;
mod reading;
mod report;
mod row_json;
mod row_note;
mod row_style;
mod row_text;
mod row_view;
mod row_words;
mod rows;
mod run;
mod segment;
mod shadows;
mod span;
mod status;
mod stop;
mod substitution;
mod text_part;
mod tree;
mod unit_notes;
mod unmet;
mod unused_definitions;
mod values;
mod version;
mod why;
mod writer;

ghost use Rattle.std.specs.Prelude.{◌≡◌, ◌<◌};

use output::Output;
use overlaid_files::OverlaidFiles;
use ports::Ports;
use run::run;
use status::Status;
use std::io::IsTerminal;
use std::marker::Brand;
use std::process::ExitCode;
use std::sync::ledger::{Blank, Ledger};
use units_io::{DirFiles, StdSink, Steps, Texts, Vars, collect_vars, collect_words};

// Runs on the system's streams and files, with a step counter that nobody reads.
fn run_on<L: Ledger>(rt: HostRuntime, words: &Texts, vars: &Vars, blank: Blank) -> Status
    requires name { blank.name ≡ L.name }
    requires parts { blank.parts ≡ L.parts }
    requires some { 0 < blank.parts }
{
    let steps: Steps<L> = Steps::new(blank);
    let mut ports = Ports {
        out: Output {
            is_terminal: rt.stdout().is_terminal(),
            sink: StdSink::new(rt.stdout()),
        },
        err: Output {
            is_terminal: rt.stderr().is_terminal(),
            sink: StdSink::new(rt.stderr()),
        },
        files: OverlaidFiles::new(rt.alloc(), DirFiles::new(rt)),
    };
    run(rt.alloc(), words.as_slice(), vars, &mut ports, steps)
}

fn main(rt: HostRuntime) -> ExitCode {
    let Ok(words) = collect_words(&rt, rt.alloc()) else {
        return ExitCode::from(Status::NoMemory.code());
    };
    let Ok(vars) = collect_vars(&rt, rt.alloc()) else {
        return ExitCode::from(Status::NoMemory.code());
    };
    let status = run_on::<Brand>(rt, &words, &vars, Blank::new(1));
    ExitCode::from(status.code())
}
