//! What is written of a run.
use vc_stats::Form;

/// What is written of a run.
#[derive(Clone, Copy, Debug, PartialEq, Eq, Drop)]
pub enum Account {
    /// Its traffic.
    Traffic,
    /// Its events, a line each, and then its traffic.
    Events,
    /// Its traffic, and then how many events of each kind there were, in this form.
    Counts(Form),
    /// Its traffic as JSON.
    Json,
}
