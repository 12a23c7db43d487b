//! The functions that calls lead to, and their parts.

use crate::interval::End;
use deck::Deck;
use def_entry::{FunctionDef, Kind, Span, What};
use expr_tree::Tree;
use std::alloc::{AllocError, Global};
use units_io::Text;

// A function at the end of a longer chain of aliases has no value, because its calls are nested too deeply.
const MOST_ALIASES: usize = 17;

/// A function that is not an alias: a copy of its definition, which is a function or a table, and the text of that.
pub(crate) struct Callee {
    pub(crate) what: What,
    pub(crate) text: Text,
}

// Written by hand, so that code that drops a callee need not prove anything about its contents.
impl Drop for Callee {
    fn drop(self) {
        let Callee { what: _, text: _ } = self;
    }
}

/// Copies the function of this name, or the function that it is an alias of.
pub(crate) fn callee_of(
    alloc: Global,
    deck: &Deck,
    name: &[u8],
) -> Result<Option<Callee>, AllocError> {
    let mut name = name;
    for _ in 0..MOST_ALIASES {
        let Some(entry) = deck.entry(Kind::Func, name) else {
            return Ok(None);
        };
        match entry.what {
            What::Alias(target) => name = target.as_bytes(),
            What::Function(_) | What::Table(_) => {
                return Ok(Some(copy_callee(alloc, entry.what, entry.text())?));
            }
            _ => return Ok(None),
        }
    }
    Ok(None)
}

fn copy_callee(alloc: Global, what: &What, text: &[u8]) -> Result<Callee, AllocError> {
    Ok(Callee {
        text: Text::from_bytes(alloc, text)?,
        what: what.copy(alloc)?,
    })
}

/// Returns the unit at an end of a function.
pub(crate) fn unit_at(function: &FunctionDef, end: End) -> Option<&Tree> {
    match end {
        End::Domain => function.in_unit.as_ref(),
        End::Range => function.out_unit.as_ref(),
    }
}

/// Returns the interval at an end of a function.
pub(crate) fn span_at(function: &FunctionDef, end: End) -> Option<Span> {
    match end {
        End::Domain => function.domain,
        End::Range => function.range,
    }
}
