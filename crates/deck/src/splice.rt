//! Splices: edits that replace lines and settings.
use crate::settings::Settings;
use deck_lines::DeckLines;

/// An edit that replaces the `cut` lines from `at` on by `put`, and the settings by `settings`.
#[derive(Drop)]
pub struct Splice {
    pub at: usize,
    pub cut: usize,
    pub put: DeckLines,
    pub settings: Settings,
}
