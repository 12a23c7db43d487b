//! The definitions of a run, and the file of each line.

use crate::evaluator::Evaluator;
use crate::line_names::{LineNames, line_names, line_names_to_read};
use crate::stop::Stop;
use command_line::{Inquiry, WhyRequest};
use deck::{Deck, Settings, built_in_text};
use live_table::LiveTable;
use std::alloc::{AllocError, Global};
use std::sync::ledger::Ledger;
use units_io::{Files, Steps, Text, Vars};

/// The file name that is reported for places in the built-in definitions.
pub(crate) const BUILT_IN_NAME: &[u8] = b"builtin";

/// The definitions of a run, and the files of their lines. The files are unknown if one of them was read twice and had
/// changed.
pub(crate) struct Definitions<L: Ledger> {
    pub(crate) evaluator: Evaluator<L>,
    pub(crate) names: Option<LineNames>,
    pub(crate) are_built_in: bool,
}

// Written by hand, so that code that drops definitions need not prove anything about their contents.
impl<L: Ledger> Drop for Definitions<L> {
    fn drop(self) {
        let Definitions {
            evaluator: _,
            names: _,
            are_built_in: _,
        } = self;
    }
}

/// Loads the definitions that a request names, or the built-in ones.
pub(crate) fn load<F: Files, L: Ledger>(
    alloc: Global,
    files: &mut F,
    request: &WhyRequest,
    vars: &Vars,
    steps: Steps<L>,
) -> Result<Definitions<L>, Stop> {
    let settings = settings_of(alloc, request, vars)?;
    let LoadedDeck { deck, names } = match &request.file {
        Some(name) => load_file(alloc, files, name.as_bytes(), &request.inquiry, settings)?,
        None => load_built_in(alloc, settings)?,
    };
    Ok(Definitions {
        evaluator: Evaluator {
            alloc,
            table: table_in_box(alloc, deck)?,
            steps,
        },
        names,
        are_built_in: request.file.is_none(),
    })
}

fn table_in_box(alloc: Global, deck: Deck) -> Result<Box<LiveTable>, AllocError> {
    Ok(Box::new(alloc, LiveTable::new(alloc, deck))?)
}

// A deck, and the files of its lines.
#[derive(Drop)]
struct LoadedDeck {
    deck: Deck,
    names: Option<LineNames>,
}

// Returns the requested locale, or `en_US`, and the variables of the environment.
fn settings_of(alloc: Global, request: &WhyRequest, vars: &Vars) -> Result<Settings, AllocError> {
    let locale = match &request.locale {
        Some(locale) => locale.copy(alloc)?,
        None => Text::from_bytes(alloc, b"en_US")?,
    };
    let vars = vars.copy(alloc)?;
    Ok(Settings { locale, vars })
}

fn load_built_in(alloc: Global, settings: Settings) -> Result<LoadedDeck, Stop> {
    let deck = Deck::from_text(alloc, built_in_text(), BUILT_IN_NAME, settings)?;
    let names = Some(LineNames::One(Text::from_bytes(alloc, BUILT_IN_NAME)?));
    Ok(LoadedDeck { deck, names })
}

fn load_file<F: Files>(
    alloc: Global,
    files: &mut F,
    name: &[u8],
    inquiry: &Inquiry,
    settings: Settings,
) -> Result<LoadedDeck, Stop> {
    let deck = Deck::load(alloc, files, name, settings)?;
    let names = names_of(alloc, files, name, inquiry, &deck)?;
    Ok(LoadedDeck { deck, names })
}

// Returns the files of the lines of a deck. A run for findings reads the files again.
fn names_of<F: Files>(
    alloc: Global,
    files: &mut F,
    name: &[u8],
    inquiry: &Inquiry,
    deck: &Deck,
) -> Result<Option<LineNames>, AllocError> {
    match inquiry {
        Inquiry::Value(_, _) => line_names(alloc, files, name, deck),
        Inquiry::Lint(_) => line_names_to_read(alloc, files, name, deck),
    }
}
