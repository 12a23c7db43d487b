//! The request in a command line of `units-why`.

use units_io::Text;

/// A command line of `units-why`.
#[derive(Drop)]
pub enum WhyCommandLine {
    /// Print the version.
    Version,
    /// Answer a request.
    Request(WhyRequest),
}

/// The request in a command line of `units-why`.
#[derive(Drop)]
pub struct WhyRequest {
    /// The definition file, or `None` for the built-in definitions.
    pub file: Option<Text>,
    /// The files that are read in place of others, in order.
    pub overlays: Vec<Overlay>,
    /// The locale, if one is given.
    pub locale: Option<Text>,
    /// The number of significant digits, from 1 to 36, if one is given.
    pub digits: Option<u8>,
    /// Whether numbers are written as integers or fractions.
    pub exact: bool,
    /// Whether the answer is written as JSON, one object per line.
    pub json: bool,
    /// The query of a request.
    pub inquiry: Inquiry,
}

/// A file that is read in place of another one.
#[derive(Drop)]
pub struct Overlay {
    /// The name of the file that is not read.
    pub name: Text,
    /// The path of the file that is read.
    pub path: Text,
}

/// The query of a request.
#[derive(Drop)]
pub enum Inquiry {
    /// Report the definitions that the value of an expression, or its conversion to another one, comes from.
    Value(Text, Option<Text>),
    /// Report the findings in all definitions, with their places.
    Lint(Findings),
}

/// The optional findings to report.
#[derive(Clone, Copy, Drop)]
pub struct Findings {
    /// Units whose names could be read as plurals or with prefixes.
    pub captures: bool,
    /// Definitions that no other definition uses.
    pub unused: bool,
}
