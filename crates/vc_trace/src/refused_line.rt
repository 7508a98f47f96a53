//! A line that a replay refuses.
use crate::line::Line;

/// A line that is not that of an event that can happen.
#[derive(Drop)]
pub(crate) struct RefusedLine {
    /// Its number, from 1.
    pub number: u64,
    /// Its bytes.
    pub line: Line,
}
