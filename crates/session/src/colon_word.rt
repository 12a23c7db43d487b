//! The command words, which begin with a colon.

ghost use Rattle.std.specs.Prelude.{◌≡◌};
ghost use Rattle.session.specs.Commands.{colon_word_of, colon_words};

/// The meaning of a word that begins with a colon.
#[derive(Clone, Copy)]
pub enum ColonWord {
    /// `:define`: adds a definition at the end of the deck.
    Define,
    /// `:drop`: removes the last definition of a name.
    DropLast,
    /// `:set`: gives a variable a value.
    Set,
    /// `:locale`: puts another locale in force.
    Locale,
    /// `:undo`: restores the deck before the last edit.
    Undo,
    /// `:redo`: restores the deck before the last undo.
    Redo,
    /// `:load`: adds the definitions of a file.
    Load,
    /// `:save`: stores the deck in a file.
    Save,
    /// `:stats`: reports how many names are settled.
    Stats,
    /// `:watch`: reports a conversion again whenever an edit changes its reply.
    Watch,
    /// `:unwatch`: ends all watches.
    Unwatch,
}

// Returns the meaning of a word, or `None` if it is not a command word.
pub(crate) fn colon_word_of(word: &[u8]) -> Option<ColonWord>
    ensures { result ≡ colon_word_of word.now colon_words }
{
    if word == b":define".as_slice() {
        Some(ColonWord::Define)
    } else if word == b":drop".as_slice() {
        Some(ColonWord::DropLast)
    } else if word == b":set".as_slice() {
        Some(ColonWord::Set)
    } else if word == b":locale".as_slice() {
        Some(ColonWord::Locale)
    } else if word == b":undo".as_slice() {
        Some(ColonWord::Undo)
    } else if word == b":redo".as_slice() {
        Some(ColonWord::Redo)
    } else if word == b":load".as_slice() {
        Some(ColonWord::Load)
    } else if word == b":save".as_slice() {
        Some(ColonWord::Save)
    } else if word == b":stats".as_slice() {
        Some(ColonWord::Stats)
    } else if word == b":watch".as_slice() {
        Some(ColonWord::Watch)
    } else if word == b":unwatch".as_slice() {
        Some(ColonWord::Unwatch)
    } else {
        None
    }
}
