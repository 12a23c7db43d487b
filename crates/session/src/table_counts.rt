//! The counts of a live table.

ghost use Rattle.std.specs.Prelude.{◌≡◌, ◌++◌, IfOk, OnOk};
ghost use Rattle.session.specs.TableCounts as spec;

use deck::Deck;
use def_entry::Kind;
use live_table::LiveTable;
use std::alloc::{AllocError, Global};
use units_io::Text;

/// Returns the line with the number of settled names, the number of all names, and the number of reductions so far.
#[tactic(auto, unfolding(crate::specs::TableCounts::session_statistics))]
pub(crate) fn statistics(alloc: Global, table: &LiveTable) -> Result<Text, AllocError>
    ensures { IfOk result (λ text. text ≡ spec.session_statistics table.now) }
{
    let counts = table.counts();
    let mut text = Vec::from_slice(alloc, b"settled ")?;
    put_count(alloc, &mut text, counts.settled, b" of ")?;
    put_count(alloc, &mut text, counts.names, b", reductions ")?;
    put_count(alloc, &mut text, counts.reductions, b"\n")?;
    Ok(Text::from(text))
}

/// Appends the line with the numbers of definitions.
#[tactic(auto, unfolding(crate::specs::TableCounts::session_banner))]
pub(crate) fn put_banner(alloc: Global, text: &mut Vec<u8>, deck: &Deck) -> Result<(), AllocError>
    ensures { OnOk result (text.new.items ≡ text.old.items ++ spec.session_banner deck.now) }
{
    put_count(alloc, text, deck.key_count(Kind::Unit) as u64, b" units, ")?;
    put_count(
        alloc,
        text,
        deck.key_count(Kind::Prefix) as u64,
        b" prefixes, ",
    )?;
    put_count(
        alloc,
        text,
        deck.key_count(Kind::Func) as u64,
        b" nonlinear units\n",
    )
}

/// Appends a count, followed by words.
pub(crate) fn put_count(
    alloc: Global,
    text: &mut Vec<u8>,
    count: u64,
    words: &[u8],
) -> Result<(), AllocError>
    ensures { OnOk result (text.new.items ≡ text.old.items ++ spec.session_count_text count words.now) }
{
    text.extend_from_slice(count.to_string(alloc)?.as_bytes())?;
    text.extend_from_slice(words)?;
    Ok(())
}
