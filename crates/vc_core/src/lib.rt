//! The network as events: nodes and switches joined by one-way ways of tokens, each event one act of one actor.
//!
//! An [`Actor`] is a node with its process, or a switch; a [`Network`] is the actors and the ways between them. A simulator makes events one after
//! another, and the same actors run in threads. Each event that [`Network::step`] makes is exactly one step of the network of the
//! plan (`specs/State`, MakesEvent). What [`replay`] answers keeps the headline, and has one list of all that the nodes communicated.
//! The list has a linearization: each message passes at one moment, and each node's part is a trace of its process
//! (`specs/Replay`). Whoever makes events by a scheduler of their own has the same by [`events_lead_on`].
#![tactic(auto)]

mod channels;
mod choices;
mod close;
mod ends;
mod event;
mod fronts;
mod laws;
mod lines;
mod network;
mod outgoing_ways;
mod owner;
mod place;
mod prefix;
mod probes;
mod reader;
mod refused;
mod replays;
mod rooms;
mod search;
mod target;
mod traffic;
mod way;
mod ways_by_end;
mod wiring;

pub use close::Close;
pub use event::Event;
pub use laws::{a_run_without_processes_ends, events_lead_on, only_processes_hold_it_up};
pub use network::Network;
pub use outgoing_ways::actor_of;
pub use place::Place;
pub use refused::{ReplayRefused, StepRefused};
pub use replays::replay;
pub use vc_actor::{Act, Actor, Turn, actors};
