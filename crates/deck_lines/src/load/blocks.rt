//! The blocks of a file.

ghost use Rattle.std.specs.Prelude.{◌≡◌, ◌++◌, [], None, map, reverse, OnOk, OnErr};
ghost use Rattle.deck_lines.specs.Blocks.{block_end_text};
ghost use Rattle.deck_lines.specs.Excerpts as spec;
ghost use Rattle.deck_lines.specs.Loads.{ExtendsStore, IsExcerptPut};
ghost use Rattle.deck_lines.specs.Marks.{plain_store_line};
ghost use Rattle.deck_lines.specs.Readings.{entry_in_store_line};

use crate::draft::{Draft, LoadFault};
use crate::line::{Block, Ending, Role, same_ending};
use def_lines::Line;
use std::alloc::{AllocError, Global};
use units_io::Text;

/// Appends a line that opens a block, closes one, or does neither, and updates the open blocks, innermost last. An end
/// line that does not close the innermost block has no effect and gets a notice.
pub(crate) fn push_role_line(
    alloc: Global,
    draft: &mut Draft,
    name: &[u8],
    blocks: &mut Vec<Block>,
    line: Line,
    role: Role,
) -> Result<(), LoadFault>
    requires { entry_in_store_line (plain_store_line line.number line.text) ≡ None }
    ensures put { IsExcerptPut draft.old (spec.role_excerpt name.now (reverse blocks.old.items) line role) result
        draft.new }
    ensures blocks { OnOk result (reverse blocks.new.items
        ≡ spec.blocks_behind_role (reverse blocks.old.items) line.number role) }
    ensures err { OnErr result (draft.new.store ≡ draft.old.store) }
{
    match role {
        Role::Opens(ending) => {
            let number = line.number;
            blocks.push(Block { ending, number })?;
            draft.push_line(alloc, line, None)
        }
        Role::Closes(ending) => {
            if !closes_innermost(blocks.as_slice(), ending) {
                return draft.refuse_line(alloc, name, line, b"stray end");
            }
            let _ = blocks.pop();
            draft.push_line(alloc, line, None)
        }
        Role::Inside => draft.push_line(alloc, line, None),
    }
}

// Reports whether an end line with this ending closes the innermost block, which is the last.
fn closes_innermost(blocks: &[Block], ending: Ending) -> bool
    ensures { result ≡ spec.closes_innermost_block ending (reverse blocks.now) }
{
    match blocks.last() {
        Some(block) => same_ending(ending, block.ending),
        None => false,
    }
}

/// Appends the end lines that are missing at the end of a file, and their notices. `blocks` are the open blocks,
/// innermost last.
pub(crate) fn push_file_end(
    alloc: Global,
    draft: &mut Draft,
    name: &[u8],
    blocks: Vec<Block>,
) -> Result<(), LoadFault>
    ensures put { IsExcerptPut draft.old (spec.excerpt_of_file_end name.now (reverse blocks.items)) result draft.new }
    ensures extends { ExtendsStore draft.old.store draft.new.store }
{
    push_unclosed_notices(alloc, draft, name, blocks.as_slice())?;
    push_missing_ends(alloc, draft, blocks)
}

// Appends the notices of the blocks that are not closed.
fn push_unclosed_notices(
    alloc: Global,
    draft: &mut Draft,
    name: &[u8],
    blocks: &[Block],
) -> Result<(), AllocError>
    ensures ok { OnOk result (draft.new.notices ≡ draft.old.notices ++ map (spec.unclosed_notice name.now) blocks.now) }
    ensures store { draft.new.store ≡ draft.old.store }
{
    for block in blocks {
        draft.push_notice(alloc, name, block.number, b"unclosed block")?;
    }
    Ok(())
}

// Appends the end lines of the blocks that are not closed, innermost first.
fn push_missing_ends(
    alloc: Global,
    draft: &mut Draft,
    mut blocks: Vec<Block>,
) -> Result<(), LoadFault>
    ensures put { IsExcerptPut draft.old
        (record { lines = map spec.missing_block_end (reverse blocks.items); notices = [] }) result draft.new }
    ensures extends { ExtendsStore draft.old.store draft.new.store }
{
    let _ = draft.store.lines();
    while let Some(block) = blocks.pop() {
        let number = block.number;
        let text = Text::from_bytes(alloc, end_line_text(block.ending))?;
        draft.push_line(alloc, Line { number, text }, None)?;
    }
    Ok(())
}

// Returns the text of the end line for an ending.
fn end_line_text(ending: Ending) -> &'static [u8]
    ensures { result.now ≡ block_end_text ending }
{
    match ending {
        Ending::ByLocale => b"!endlocale".as_slice(),
        Ending::ByVar => b"!endvar".as_slice(),
        Ending::ByUtf8 => b"!endutf8".as_slice(),
    }
}
