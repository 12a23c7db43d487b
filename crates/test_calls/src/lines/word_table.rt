//! Tables of words.

// Returns the meaning of a word in a table, or `None` if the table lacks the word.
pub(crate) fn meaning_of<M: Copy>(table: &[(&[u8], M)], word: &[u8]) -> Option<M> {
    for (name, meaning) in table {
        if *name == word {
            return Some(*meaning);
        }
    }
    None
}
