//! The key and the entry of a line.

ghost use Rattle.std.specs.Prelude.{◌≡◌, ◌⊎◌, true, MatchResult};
ghost use Rattle.def_lines.specs.Kinds.{kind_of_line};
ghost use Rattle.def_entry.specs.EntryGrammar.{HasEntryFault, IsEntry};
ghost use Rattle.def_entry.specs.Outcomes.{GivesEntry};
ghost use Rattle.def_entry.specs.EntryReading.{entry_by_heading, entry_of, has_entry};
ghost use Rattle.def_entry.specs.LineViews.{seen_entry, seen_heading};
ghost use Rattle.def_entry.specs.Views.{entry_definition_view, entry_with_definition};

use crate::entry::What;
use crate::fault::EntryFault;
use crate::key::Key;
use crate::line_head::{Heading, heading_in};
use crate::what::what_of;
use std::alloc::Global;
use units_io::Text;

/// Returns the key of a line and its definition, if `classify` takes the line for a definition or a unit list.
///
/// The error is the first fault in this order: `BadName` with the name, the parameter or the alias target that is not
/// a valid name; `BadForm` if the line does not have the form of a definition; `BadTable` if the points do not form a
/// table; `Parse` with the first fault of its expressions.
pub fn read_entry(alloc: Global, line: &[u8]) -> Result<(Key, What), EntryFault>
    requires { has_entry (kind_of_line line.now) ≡ true }
    ensures exact { MatchResult result
        (λ made. IsEntry line.now made.0 (entry_with_definition line.now made.1))
        (λ fault. (fault ≡ EntryFault.OutOfMemory) ⊎ HasEntryFault line.now fault) }
    ensures computed { GivesEntry (seen_entry line.now) result (entry_of line.now) }
{
    entry_behind(alloc, &heading_in(line))
}

// Returns the key of a heading and the definition in its line.
fn entry_behind(alloc: Global, heading: &Heading) -> Result<(Key, What), EntryFault>
    ensures { GivesEntry (λ made. (made.0, record { text = heading.now.text.now; what = entry_definition_view made.1 }))
        result (entry_by_heading (seen_heading heading.now)) }
{
    let what = what_of(alloc, heading)?;
    let name = Text::from_bytes(alloc, heading.name)?;
    let key = Key {
        kind: heading.kind,
        name,
    };
    Ok((key, what))
}
