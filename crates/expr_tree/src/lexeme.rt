//! Lexemes, and reading the one at the front of a text.

ghost use Rattle.std.specs.Prelude.{◌≡◌, ◌<◌, ◌≤◌, ◌+◌, ◌^◌, if◌then◌else◌, IsTrue, length, slice_index, true};
ghost use Rattle.std.specs.List as lists;
ghost use Rattle.expr_tree.specs.Lexemes as spec;
ghost use Rattle.expr_tree.specs.Names as names;
ghost use Rattle.expr_tree.specs.TokenViews.{seen_lexeme, seen_lexeme_piece};

use crate::name::{has_power, is_name_word, is_refused, is_word_byte};
use crate::operator::RootKind;
use crate::power_digit::PowerDigit;
use crate::token::Token;
use frac128::{NumeralFault, read_longest};
use units_io::{is_blank, prefix_len};

// A part of a text.
#[derive(Clone, Copy)]
pub(crate) enum Lexeme<'a> {
    // A space or a tab.
    Blank,
    // A token.
    Whole(Token<'a>),
    // A numeral that exceeds its limits.
    TooLong,
    // Bytes that are not a token.
    Malformed,
}

// A lexeme at the front of a text, and its length in bytes.
#[derive(Clone, Copy)]
pub(crate) struct Piece<'a> {
    pub(crate) lexeme: Lexeme<'a>,
    pub(crate) len: usize,
}

impl<'a> Piece<'a> {
    // Returns the lexeme at the front of a non-empty text. A point directly after a numeral is malformed.
    pub(crate) fn first(text: &'a [u8], after_numeral: bool) -> Piece<'a>
        requires { 0 < length text.now }
        ensures is { seen_lexeme_piece result ≡ spec.first_lexeme_piece after_numeral text.now }
        ensures some { 0 < result.len }
        ensures within { result.len ≤ length text.now }
    {
        let byte = text[0];
        if is_blank(byte) {
            return Piece {
                lexeme: Lexeme::Blank,
                len: 1,
            };
        }
        if after_numeral && byte == b'.' {
            return Piece {
                lexeme: Lexeme::Malformed,
                len: 1,
            };
        }
        if byte.is_ascii_digit() || byte == b'.' {
            return numeral_piece(text);
        }
        if is_word_byte(byte) {
            return word_at_front(text);
        }
        mark_piece(text)
    }
}

impl Lexeme<'_> {
    // Whether it is a numeral.
    pub(crate) fn is_numeral(&self) -> bool
        ensures { result ≡ spec.is_numeral_lexeme (seen_lexeme self.now) }
    {
        match self {
            Lexeme::TooLong => true,
            Lexeme::Whole(token) => token.is_numeral(),
            Lexeme::Blank | Lexeme::Malformed => false,
        }
    }
}

// Returns the numeral at the front.
fn numeral_piece(text: &[u8]) -> Piece<'_>
    requires { 0 < length text.now }
    ensures is { seen_lexeme_piece result ≡ spec.numeral_piece text.now }
    ensures some { 0 < result.len }
    ensures within { result.len ≤ length text.now }
{
    let (len, numeral) = read_longest(text);
    if len == 0 {
        return Piece {
            lexeme: Lexeme::Malformed,
            len: 1,
        };
    }
    let lexeme = match numeral {
        Ok(numeral) => Lexeme::Whole(Token::Numeral(numeral)),
        Err(NumeralFault::TooLong) => Lexeme::TooLong,
        Err(NumeralFault::NotNumeral) => Lexeme::Malformed,
    };
    Piece { lexeme, len }
}

// Returns the word at the front.
#[tactic(auto, using(crate::proofs::Lengths::lengths, crate::proofs::WordFronts::words))]
fn word_at_front(text: &[u8]) -> Piece<'_>
    requires word { IsTrue (names.is_word_byte (slice_index text.now 0)) }
    requires some { 0 < length text.now }
    ensures is { seen_lexeme_piece result ≡ spec.front_word_lexeme text.now }
    ensures some { 0 < result.len }
    ensures within { result.len ≤ length text.now }
{
    let (word, rest) = text.split_at(word_len(text));
    let opened = is_opened(rest);
    word_piece(word, opened)
}

// Returns the length of the word at the front of the bytes.
fn word_len(bytes: &[u8]) -> usize
    ensures { result ≡ lists.prefix_len names.is_word_byte bytes.now }
{
    prefix_len(bytes, is_word_byte)
}

// Whether the first byte is `(`.
fn is_opened(text: &[u8]) -> bool
    ensures is { result ≡ spec.has_paren text.now }
    ensures some { IsTrue result → 0 < length text.now }
{
    !text.is_empty() && text[0] == b'('
}

// Classifies a word; `opened` says whether a `(` follows it.
fn word_piece(word: &[u8], opened: bool) -> Piece<'_>
    requires whole { lists.list_all names.is_word_byte word.now ≡ true }
    requires some { 0 < length word.now }
    requires room { length word.now + (if opened then 1 else 0) < 2 ^ 64 }
    ensures is { seen_lexeme_piece result ≡ spec.word_piece word.now opened }
    ensures some { 0 < result.len }
    ensures within { result.len ≤ length word.now + (if opened then 1 else 0) }
{
    if !(is_name_word(word) || is_refused(word)) {
        return Piece {
            lexeme: other_word(word),
            len: word.len(),
        };
    }
    if opened {
        return Piece {
            lexeme: Lexeme::Whole(Token::Head(word)),
            len: word.len() + 1,
        };
    }
    Piece {
        lexeme: Lexeme::Whole(Token::Word(word)),
        len: word.len(),
    }
}

// Classifies a word that is neither a name nor refused.
fn other_word(word: &[u8]) -> Lexeme<'_>
    requires { lists.list_all names.is_word_byte word.now ≡ true }
    ensures { seen_lexeme result ≡ spec.other_word word.now }
{
    if word == b"per".as_slice() {
        return Lexeme::Whole(Token::Slash);
    }
    if word == b"sqrt".as_slice() {
        return Lexeme::Whole(Token::Root(RootKind::Square));
    }
    if word == b"cuberoot".as_slice() {
        return Lexeme::Whole(Token::Root(RootKind::Cube));
    }
    word_with_power(word)
}

// Returns the word with power if the word is a name followed by one digit from 2 to 9, or else `Malformed`.
#[tactic(auto, using(crate::proofs::PowerWords::powers))]
fn word_with_power(word: &[u8]) -> Lexeme<'_>
    requires { lists.list_all names.is_word_byte word.now ≡ true }
    ensures { seen_lexeme result ≡ spec.word_with_power word.now }
{
    if !has_power(word) {
        return Lexeme::Malformed;
    }
    let last = word.len() - 1;
    let digit = PowerDigit::of_byte(word[last]);
    Lexeme::Whole(Token::WordWithPower(&word[..last], digit))
}

// Returns the lexeme of two stars, or of a byte that is a token by itself.
fn mark_piece(text: &[u8]) -> Piece<'_>
    requires { 0 < length text.now }
    ensures is { seen_lexeme_piece result ≡ spec.mark_piece text.now }
    ensures some { 0 < result.len }
    ensures within { result.len ≤ length text.now }
{
    if text.len() > 1 && text[0] == b'*' && text[1] == b'*' {
        return Piece {
            lexeme: Lexeme::Whole(Token::Caret),
            len: 2,
        };
    }
    Piece {
        lexeme: mark(text[0]),
        len: 1,
    }
}

// Returns the token that the byte is by itself, or `Malformed`.
fn mark(byte: u8) -> Lexeme<'static>
    ensures { seen_lexeme result ≡ spec.byte_lexeme byte }
{
    match byte {
        b'+' => Lexeme::Whole(Token::Plus),
        b'-' => Lexeme::Whole(Token::Minus),
        b'*' => Lexeme::Whole(Token::Star),
        b'/' => Lexeme::Whole(Token::Slash),
        b'|' => Lexeme::Whole(Token::Bar),
        b'^' => Lexeme::Whole(Token::Caret),
        b'~' => Lexeme::Whole(Token::Tilde),
        b'(' => Lexeme::Whole(Token::Open),
        b')' => Lexeme::Whole(Token::Close),
        _ => Lexeme::Malformed,
    }
}
