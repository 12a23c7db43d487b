//! The meaning of a line.

ghost use Rattle.std.specs.Prelude.{◌≡◌, ℕ, List, IfOk, true};
ghost use Rattle.def_lines.specs.Kinds.{kind_of_line};
ghost use Rattle.def_entry.specs.EntryReading.{entry_of, has_entry};
ghost use Rattle.deck_lines.specs.Marks.{plain_store_line};
ghost use Rattle.deck_lines.specs.Readings as spec;
ghost use Rattle.deck_lines.specs.Views.{seen_store_line_reading};

use crate::line::{Ending, Role};
use def_entry::{EntryFault, Key, What, entry_fault_text, entry_memory_law, read_entry};
use def_lines::{LineKind, classify};
use std::alloc::{AllocError, Global};
use units_io::Text;

/// The meaning of a line.
pub enum Reading<'a> {
    /// It opens or closes a block, or does neither.
    Stands(Role),
    /// It defines this key.
    Defines(Key, What),
    /// It includes the file of this name.
    Includes(&'a [u8]),
    /// It has the fault that this text describes.
    Faulty(Text),
}

/// Returns the meaning of a line. The only error is running out of memory.
#[tactic(auto, unfolding(crate::specs::Readings::store_line_reading_of, crate::specs::Readings::entry_in_store_line))]
pub fn read_line(alloc: Global, line: &[u8]) -> Result<Reading<'_>, AllocError>
    ensures means { IfOk result
        (λ reading. seen_store_line_reading line.now reading ≡ spec.store_line_reading_of line.now) }
    ensures defines { IfOk result (λ reading. (number : ℕ)
        → spec.entry_in_store_line (plain_store_line number line.now)
        ≡ spec.defined_by (seen_store_line_reading line.now reading)) }
{
    let role = match classify(line) {
        LineKind::Definition | LineKind::UnitList => return read_definition(alloc, line),
        LineKind::Include(name) => return Ok(Reading::Includes(name)),
        LineKind::UnknownDirective => return faulty(alloc, b"unknown directive"),
        LineKind::BadDirective => return faulty(alloc, b"bad directive"),
        LineKind::Locale(_) => Role::Opens(Ending::ByLocale),
        LineKind::Var(_, _) | LineKind::VarNot(_, _) => Role::Opens(Ending::ByVar),
        LineKind::Utf8 => Role::Opens(Ending::ByUtf8),
        LineKind::EndLocale => Role::Closes(Ending::ByLocale),
        LineKind::EndVar => Role::Closes(Ending::ByVar),
        LineKind::EndUtf8 => Role::Closes(Ending::ByUtf8),
        LineKind::Blank | LineKind::Set(_, _) | LineKind::Message(_) | LineKind::Prompt =>
            Role::Inside,
    };
    Ok(Reading::Stands(role))
}

// Returns the reading of a line with the fault that `words` describe.
fn faulty(alloc: Global, words: &[u8]) -> Result<Reading<'_>, AllocError>
    ensures { IfOk result (λ reading. (line : List ℕ) → seen_store_line_reading line reading ≡ spec.Faulty words.now) }
{
    Ok(Reading::Faulty(Text::from_bytes(alloc, words)?))
}

// Reads a line that should define a key.
fn read_definition(alloc: Global, line: &[u8]) -> Result<Reading<'_>, AllocError>
    requires { has_entry (kind_of_line line.now) ≡ true }
    ensures { IfOk result (λ reading. seen_store_line_reading line.now reading
        ≡ spec.store_line_reading_of_entry (entry_of line.now)) }
{
    match read_entry(alloc, line) {
        Ok((key, what)) => Ok(Reading::Defines(key, what)),
        Err(EntryFault::OutOfMemory) => Err(AllocError),
        Err(fault) => {
            entry_memory_law();
            Ok(Reading::Faulty(entry_fault_text(alloc, &fault)?))
        }
    }
}
