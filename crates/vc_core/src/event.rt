//! Events of a network.
use vc_actor::Act;

/// One act of one actor. Actors are the nodes in the order of the plan, then the switches.
#[derive(Clone, Copy, Debug, PartialEq, Eq, Drop)]
pub struct Event {
    /// The actor's number.
    pub actor: u8,
    /// What it does.
    pub act: Act,
}
