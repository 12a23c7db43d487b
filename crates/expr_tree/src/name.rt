//! Names, and the words of expressions.

ghost use Rattle.std.specs.Prelude.{◌≡◌, ◌∷◌, [], codes, true};
ghost use Rattle.std.specs.List.{list_all};
ghost use Rattle.expr_tree.specs.Names as spec;

// The maximum length of a name in bytes.
const LONGEST_NAME: usize = 255;

/// Whether the bytes are a name: 1 to 255 bytes, none of them a blank, a control byte or one of
/// `+ - * / | ^ ; ~ # ( ) [ ]`. The first is not a digit and none of `_ , . !`, and the last is none of `_ , .`. If the
/// last is a digit from 1 to 9, some `_` is followed only by digits, dots and commas. `per`, `sqrt`, `cuberoot` and the
/// refused names are not names.
pub fn is_name(bytes: &[u8]) -> bool
    ensures { result ≡ spec.is_name bytes.now }
{
    has_word_bytes(bytes) && is_name_word(bytes)
}

// Whether a word is a name. The caller has already checked that each byte may be in a word.
pub(crate) fn is_name_word(word: &[u8]) -> bool
    requires { list_all spec.is_word_byte word.now ≡ true }
    ensures { result ≡ spec.is_name word.now }
{
    is_spelled(word) && !ends_in_count(word) && !is_keyword(word) && !is_refused(word)
}

// Whether a word has the length, the first byte and the last byte of a name.
fn is_spelled(word: &[u8]) -> bool
    requires { list_all spec.is_word_byte word.now ≡ true }
    ensures { result ≡ spec.is_spelled word.now }
{
    !word.is_empty()
        && word.len() <= LONGEST_NAME
        && may_begin(word[0])
        && may_end(word[word.len() - 1])
}

// Whether each of the bytes may be in a word.
fn has_word_bytes(bytes: &[u8]) -> bool
    ensures { result ≡ list_all spec.is_word_byte bytes.now }
{
    bytes.iter().all(|byte| is_word_byte(*byte))
}

// Whether the last byte is a digit from 1 to 9 that is not part of an index.
fn ends_in_count(bytes: &[u8]) -> bool
    ensures { result ≡ spec.ends_in_count bytes.now }
{
    !bytes.is_empty() && is_count(bytes[bytes.len() - 1]) && !has_index(bytes)
}

/// Whether the bytes are the name of a refused function, such as `sin`.
pub fn is_refused(bytes: &[u8]) -> bool
    ensures { result ≡ spec.is_refused bytes.now }
{
    match bytes {
        [b'a', base @ ..] => is_trigonometric(base),
        _ => is_trigonometric(bytes) || is_logarithmic(bytes),
    }
}

// Whether the bytes are the name of a trigonometric or hyperbolic function that is not an inverse.
fn is_trigonometric(bytes: &[u8]) -> bool
    ensures { result ≡ spec.is_expression_word_among
        (codes "sin" ∷ codes "cos" ∷ codes "tan" ∷ codes "sinh" ∷ codes "cosh" ∷ codes "tanh" ∷ []) bytes.now }
{
    matches!(
        bytes,
        b"sin" | b"cos" | b"tan" | b"sinh" | b"cosh" | b"tanh"
    )
}

// Whether the bytes are the name of a logarithm or of the exponential function.
fn is_logarithmic(bytes: &[u8]) -> bool
    ensures { result ≡ spec.is_expression_word_among
        (codes "ln" ∷ codes "log" ∷ codes "log2" ∷ codes "exp" ∷ []) bytes.now }
{
    matches!(bytes, b"ln" | b"log" | b"log2" | b"exp")
}

// Whether a word is a name followed by one digit from 2 to 9.
#[tactic(auto, using(crate::proofs::WordFronts::words))]
pub(crate) fn has_power(word: &[u8]) -> bool
    requires { list_all spec.is_word_byte word.now ≡ true }
    ensures { result ≡ spec.has_power word.now }
{
    !word.is_empty() && is_power_byte(word[word.len() - 1]) && is_name_word(&word[..word.len() - 1])
}

// Whether the byte is a digit from 2 to 9.
fn is_power_byte(byte: u8) -> bool
    ensures { result ≡ spec.is_power_byte byte }
{
    matches!(byte, b'2'..=b'9')
}

// Whether the bytes are a keyword.
fn is_keyword(bytes: &[u8]) -> bool
    ensures { result ≡ spec.is_expression_word_among spec.expression_keywords bytes.now }
{
    matches!(bytes, b"per" | b"sqrt") || bytes == b"cuberoot".as_slice()
}

// Whether the byte may be in a word. Most bytes are letters, so these are tested first.
pub(crate) fn is_word_byte(byte: u8) -> bool
    ensures { result ≡ spec.is_word_byte byte }
{
    byte.is_ascii_alphabetic()
        || !matches!(
            byte,
            0..=32
                | 127
                | b'+'
                | b'-'
                | b'*'
                | b'/'
                | b'|'
                | b'^'
                | b';'
                | b'~'
                | b'#'
                | b'('
                | b')'
                | b'['
                | b']'
        )
}

// Whether a name may begin with the byte.
fn may_begin(byte: u8) -> bool
    ensures { result ≡ spec.may_begin byte }
{
    !matches!(byte, b'0'..=b'9' | b'_' | b',' | b'.' | b'!')
}

// Whether a name may end in the byte.
fn may_end(byte: u8) -> bool
    ensures { result ≡ spec.may_end_name byte }
{
    !matches!(byte, b'_' | b',' | b'.')
}

// Whether the byte is a digit from 1 to 9.
fn is_count(byte: u8) -> bool
    ensures { result ≡ spec.is_count byte }
{
    matches!(byte, b'1'..=b'9')
}

// Whether the byte is a digit, a dot or a comma.
fn is_index_byte(byte: u8) -> bool
    ensures { result ≡ spec.is_index_byte byte }
{
    matches!(byte, b'0'..=b'9' | b'.' | b',')
}

// Whether some `_` is followed only by digits, dots and commas.
fn has_index(bytes: &[u8]) -> bool
    ensures { result ≡ spec.has_index bytes.now }
{
    let mut in_index = false;
    for &byte in bytes {
        in_index = byte == b'_' || in_index && is_index_byte(byte);
    }
    in_index
}
