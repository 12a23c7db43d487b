//! The options of replies.

/// How replies are computed and written.
#[derive(Clone, Copy, Debug, PartialEq, Eq)]
pub struct Options {
    /// The number of significant digits, from 1 to 36.
    pub digits: u8,
    /// Write numbers as `n` or `n|d`; the digits have no effect.
    pub exact: bool,
    /// Refuse reciprocal conversions.
    pub strict: bool,
    /// Write only the first line of a linear conversion.
    pub one_line: bool,
    /// Write no tab and no signs, and separate lists by `;`. It overrides `verbose`.
    pub compact: bool,
    /// Write no banner, no messages and no prompts. It changes no reply.
    pub quiet: bool,
    /// Round the last count of a list.
    pub round: bool,
    /// Write the texts of FROM and TO in the reply.
    pub verbose: bool,
}
