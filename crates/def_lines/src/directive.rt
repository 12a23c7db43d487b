//! The directives and their words.

ghost use Rattle.std.specs.Prelude.{◌≡◌, map};
ghost use Rattle.def_lines.specs.Kinds.{directive_of_word, directives};

/// A directive, named by the word after a `!`.
#[derive(Clone, Copy)]
pub enum Directive {
    /// `!include`: includes the lines of another file.
    Include,
    /// `!locale`: starts a block for one locale.
    Locale,
    /// `!endlocale`: ends a block for one locale.
    EndLocale,
    /// `!set`: sets a variable that has no value.
    Set,
    /// `!var`: starts a block for some values of a variable.
    Var,
    /// `!varnot`: starts a block for all other values of a variable.
    VarNot,
    /// `!endvar`: ends a block for values of a variable.
    EndVar,
    /// `!utf8`: starts a block that always applies.
    Utf8,
    /// `!endutf8`: ends a block that always applies.
    EndUtf8,
    /// `!message`: a text to display.
    Message,
    /// `!prompt`: a prompt, which is ignored.
    Prompt,
    /// `!unitlist`: a named list of units.
    UnitList,
}

// The words of the directives.
const DIRECTIVES: &[(&[u8], Directive)] = &[
    (b"include", Directive::Include),
    (b"locale", Directive::Locale),
    (b"endlocale", Directive::EndLocale),
    (b"set", Directive::Set),
    (b"var", Directive::Var),
    (b"varnot", Directive::VarNot),
    (b"endvar", Directive::EndVar),
    (b"utf8", Directive::Utf8),
    (b"endutf8", Directive::EndUtf8),
    (b"message", Directive::Message),
    (b"prompt", Directive::Prompt),
    (b"unitlist", Directive::UnitList),
];

// Returns the directive with this word.
pub(crate) fn directive_of(word: &[u8]) -> Option<Directive>
    ensures { result ≡ directive_of_word word.now directives }
{
    directive_in(DIRECTIVES, word)
}

// Returns the directive of a word in a table.
fn directive_in(table: &[(&[u8], Directive)], word: &[u8]) -> Option<Directive>
    ensures { result ≡ directive_of_word word.now (map (λ entry. (entry.0.now, entry.1)) table.now) }
{
    for (name, directive) in table {
        if word == *name {
            return Some(*directive);
        }
    }
    None
}
