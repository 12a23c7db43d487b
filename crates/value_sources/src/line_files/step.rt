//! The effect of a line on the files of the lines after it.

ghost use Rattle.std.specs.Prelude.{◌≡◌, OnOk, reverse};
ghost use Rattle.deck_lines.specs.Excerpts as excerpts;
ghost use Rattle.value_sources.specs.LineFileSteps as spec;

use super::fault::LineFilesFault;
use super::pass::same_ending;
use deck_lines::{Block, Ending, Role};
use def_lines::{LineKind, classify};

/// The effect of a line on the files of the lines after it.
#[derive(Clone, Copy)]
pub(crate) enum Step<'a> {
    /// The lines of the file with this name follow.
    Includes(&'a [u8]),
    /// The file continues, and the line has this effect on its open blocks.
    Changes(Role),
}

/// Returns the effect of a line on the files of the lines after it. A definition is not parsed.
#[tactic(auto, unfolding(deck_lines::specs::Readings::store_line_reading_of))]
pub(crate) fn step_of(line: &[u8]) -> Step<'_>
    ensures { spec.IsLineFileStepOf line.now result }
{
    let role = match classify(line) {
        LineKind::Include(name) => return Step::Includes(name),
        LineKind::Locale(_) => Role::Opens(Ending::ByLocale),
        LineKind::Var(_, _) | LineKind::VarNot(_, _) => Role::Opens(Ending::ByVar),
        LineKind::Utf8 => Role::Opens(Ending::ByUtf8),
        LineKind::EndLocale => Role::Closes(Ending::ByLocale),
        LineKind::EndVar => Role::Closes(Ending::ByVar),
        LineKind::EndUtf8 => Role::Closes(Ending::ByUtf8),
        LineKind::Definition | LineKind::UnitList => Role::Inside,
        LineKind::Blank | LineKind::Set(_, _) | LineKind::Message(_) | LineKind::Prompt => {
            Role::Inside
        }
        LineKind::UnknownDirective | LineKind::BadDirective => Role::Inside,
    };
    Step::Changes(role)
}

/// Updates the open blocks, innermost last, for a line with this number and role.
pub(crate) fn change_blocks(
    blocks: &mut Vec<Block>,
    number: u32,
    role: Role,
) -> Result<(), LineFilesFault>
    ensures { OnOk result (reverse blocks.new.items
        ≡ excerpts.blocks_behind_role (reverse blocks.old.items) number role) }
{
    match role {
        Role::Opens(ending) => blocks.push(Block { ending, number })?,
        Role::Closes(ending) => {
            if closes_innermost(blocks.as_slice(), ending) {
                let _ = blocks.pop();
            }
        }
        Role::Inside => {}
    }
    Ok(())
}

// Reports whether an end line with this ending closes the innermost block, which is the last.
fn closes_innermost(blocks: &[Block], ending: Ending) -> bool
    ensures { result ≡ excerpts.closes_innermost_block ending (reverse blocks.now) }
{
    match blocks.last() {
        Some(block) => same_ending(ending, block.ending),
        None => false,
    }
}
