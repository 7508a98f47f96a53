//! What a replay came to.
use vc_core::Close;

/// What a replay came to.
#[derive(Clone, Copy, Debug, PartialEq, Eq, Drop)]
pub enum Replayed {
    /// All events were made, and a run that may make no more ends so there.
    Ended(Close),
    /// A line was refused.
    Refused,
    /// The file of events can't be opened.
    NoEvents,
}
