//! The lines of answers.

ghost use Rattle.std.specs.Prelude.{◌≡◌, ◌++◌, [], IfOk, OnOk};
ghost use Rattle.session.specs.Lines as spec;

use deck::Deck;
use std::alloc::{AllocError, Global};
use units_io::Text;

/// Returns an empty text. Allocates no memory.
pub(crate) fn no_text(alloc: Global) -> Text
    ensures { result ≡ [] }
{
    Text::from(Vec::new(alloc))
}

/// Appends a line feed to a text, without copying the text.
pub(crate) fn line_of(text: Text) -> Result<Text, AllocError>
    ensures { IfOk result (λ line. line ≡ spec.session_line_of_text text) }
{
    let mut line = text.into_bytes();
    line.push(b'\n')?;
    Ok(Text::from(line))
}

/// Returns a line with some words, followed by a word.
pub(crate) fn word_line(alloc: Global, words: &[u8], word: &[u8]) -> Result<Text, AllocError>
    ensures { IfOk result (λ line. line ≡ spec.session_line_with_word words.now word.now) }
{
    let mut line = Vec::from_slice(alloc, words)?;
    line.extend_from_slice(word)?;
    line.push(b'\n')?;
    Ok(Text::from(line))
}

/// Returns the notices of a deck, each on a line. The only error is running out of memory.
pub fn notice_lines(alloc: Global, deck: &Deck) -> Result<Vec<u8>, AllocError>
    ensures { IfOk result (λ lines. lines.items ≡ spec.session_lines_of_texts deck.now.notices) }
{
    let mut lines = Vec::new(alloc);
    put_lines(&mut lines, deck.notices().as_slice())?;
    Ok(lines)
}

/// Appends texts, each with a line feed.
pub(crate) fn put_lines(lines: &mut Vec<u8>, texts: &[Text]) -> Result<(), AllocError>
    ensures { OnOk result (lines.new.items ≡ lines.old.items ++ spec.session_lines_of_texts texts.now) }
{
    for text in texts {
        put_line(lines, text.as_bytes())?;
    }
    Ok(())
}

// Appends a text and a line feed.
fn put_line(lines: &mut Vec<u8>, text: &[u8]) -> Result<(), AllocError>
    ensures { OnOk result (lines.new.items ≡ lines.old.items ++ spec.session_line_of_text text.now) }
{
    lines.extend_from_slice(text)?;
    lines.push(b'\n')?;
    Ok(())
}
