//! The diagnostics of a scenario text with their rules and places, and what the diagnostics need besides them.
use crate::cause::Cause;
use crate::members::Known;
use indexmap::IndexMap;
use schema::Version;
use toml_places::Span;

/// A diagnostic.
#[derive(Clone, Copy, Debug, PartialEq, Eq)]
pub struct Diagnostic {
    /// The rule that the text breaks, 1 to 10.
    pub rule: u8,
    pub cause: Cause,
    /// Where it stands.
    pub span: Span,
}

/// All diagnostics of a text, and what more its words need.
#[derive(Drop)]
pub struct Diagnostics {
    /// The diagnostics by their places in the text.
    pub list: Vec<Diagnostic>,
    /// The rule by which the text is refused, the least of these.
    pub rule: u8,
    /// The version by which the text is judged.
    pub version: Version,
    /// The groups that the text names.
    pub groups: IndexMap<String, Known>,
    /// What is wrong with a text that is no TOML document, in words.
    pub fault: String,
}
