//! What a worker gives back.
use crate::link::Ends;
use vc_core::Actor;

/// Why a worker ended.
#[derive(Clone, Copy, Debug, PartialEq, Eq, Drop)]
pub enum Stop {
    /// It used its turns.
    Turns,
    /// The gate did not let it go on.
    Gate,
    /// Its clock, or the stamp of an item, is at `u64::MAX`.
    Clock,
    /// There was no memory for an act.
    Memory,
}

/// What a worker gives back.
#[derive(Drop)]
pub struct ActorRun<L> {
    /// The actor's number.
    pub id: u8,
    /// The actor, as its acts left it.
    pub actor: Actor,
    /// What became of its acts.
    pub log: L,
    /// The actor's ends of the rings.
    pub ends: Ends,
    /// Why the worker ended.
    pub stop: Stop,
}
