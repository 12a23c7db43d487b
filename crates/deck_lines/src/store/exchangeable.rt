//! The check whether lines may be replaced by others.

ghost use Rattle.std.specs.Prelude.{◌≡◌, ◌≤◌, ◌+◌, ◌↔◌, ℕ, [], Some, None, IfOk, IsTrue, length, reverse};
ghost use Rattle.std.specs.Prelude.{if◌then◌else◌};
ghost use Rattle.def_lines.specs.Kinds.{kind_of_line};
ghost use Rattle.deck_lines.specs.Blocks.{block_role_of_kind};
ghost use Rattle.deck_lines.specs.ClosedBlocks.{AreBlocksClosed, blocks_past, blocks_without};
ghost use Rattle.deck_lines.specs.Exchangeable.{CanExchangeStoredLines};
ghost use Rattle.deck_lines.specs.Limits.{most_store_bytes, most_store_lines, stored_text_len};
ghost use Rattle.deck_lines.specs.Origins.{exchanged_store_lines};

use super::line_list::{MOST_BYTES, MOST_LINES};
use super::line_store::LineStore;
use super::origins::line_at;
use crate::line::{DeckLine, Ending, Role, same_ending};
use def_lines::{LineKind, classify};
use std::alloc::{AllocError, Global};

/// Returns whether the `cut` lines from `at` on may be replaced by `put`: the store has that many lines there, and the
/// resulting lines are closed and within the limits. Makes one pass over the lines. The only error is running out of
/// memory.
pub fn can_exchange(
    alloc: Global,
    store: &LineStore,
    at: usize,
    cut: usize,
    put: &[DeckLine],
) -> Result<bool, AllocError>
    ensures { IfOk result (λ can. IsTrue can ↔ CanExchangeStoredLines at cut put.now store.now.lines) }
{
    let count = store.lines().len();
    if count < at {
        return Ok(false);
    }
    if count - at < cut {
        return Ok(false);
    }
    let left = count - cut;
    if MOST_LINES - left < put.len() {
        return Ok(false);
    }
    are_closed_and_small(alloc, store, at, cut, put)
}

// Returns whether the resulting lines are closed, and their texts are within the limit.
fn are_closed_and_small(
    alloc: Global,
    store: &LineStore,
    at: usize,
    cut: usize,
    put: &[DeckLine],
) -> Result<bool, AllocError>
    requires places { at + cut ≤ length store.now.lines }
    requires few { length (exchanged_store_lines at cut put.now store.now.lines) ≤ most_store_lines }
    ensures { IfOk result (λ are. IsTrue are ↔ (AreBlocksClosed (exchanged_store_lines at cut put.now store.now.lines)
        × (stored_text_len (exchanged_store_lines at cut put.now store.now.lines) ≤ most_store_bytes))) }
{
    let mut endings = Vec::new(alloc);
    let mut room = MOST_BYTES;
    for place in 0..store.len() - cut + put.len() {
        let line = line_at(store, at, cut, put, place);
        let len = line.text.len();
        if room < len {
            return Ok(false);
        }
        room -= len;
        let passes = pass_line(&mut endings, line.text, line.mark)?;
        if !passes {
            return Ok(false);
        }
    }
    Ok(endings.is_empty())
}

// Updates the endings of the open blocks, innermost last, for a line. Returns false if the line is an end line, without
// the mark, that does not close the innermost block.
#[tactic(auto, unfolding(crate::specs::ClosedBlocks::blocks_past))]
fn pass_line(endings: &mut Vec<Ending>, text: &[u8], mark: bool) -> Result<bool, AllocError>
    ensures { IfOk result (λ passes. (number : ℕ)
        → blocks_past (reverse endings.old.items) (record { number = number; text = text.now; mark = mark })
        ≡ (if passes then Some (reverse endings.new.items) else None)) }
{
    if mark {
        return Ok(true);
    }
    match role_of_line(text) {
        Role::Opens(ending) => {
            endings.push(ending)?;
            Ok(true)
        }
        Role::Closes(ending) => Ok(close_innermost(endings, ending)),
        Role::Inside => Ok(true),
    }
}

// Closes the innermost block, if this is its ending, and returns whether it did.
fn close_innermost(endings: &mut Vec<Ending>, ending: Ending) -> bool
    ensures { blocks_without ending (reverse endings.old.items)
        ≡ (if result then Some (reverse endings.new.items) else None) }
{
    match endings.pop() {
        Some(innermost) => same_ending(ending, innermost),
        None => false,
    }
}

// Returns the effect of a line on the open blocks.
fn role_of_line(text: &[u8]) -> Role
    ensures { result ≡ block_role_of_kind (kind_of_line text.now) }
{
    match classify(text) {
        LineKind::Locale(_) => Role::Opens(Ending::ByLocale),
        LineKind::Var(_, _) | LineKind::VarNot(_, _) => Role::Opens(Ending::ByVar),
        LineKind::Utf8 => Role::Opens(Ending::ByUtf8),
        LineKind::EndLocale => Role::Closes(Ending::ByLocale),
        LineKind::EndVar => Role::Closes(Ending::ByVar),
        LineKind::EndUtf8 => Role::Closes(Ending::ByUtf8),
        _ => Role::Inside,
    }
}
