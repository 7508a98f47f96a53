//! One actor of a network, a node or a switch: what it can do, and each step that it makes by itself.
//!
//! An [`Actor`] is a node with its process, or a switch. What it is given of the ways at its links is a token that comes, and by which
//! links there is room. Each step that it makes is exactly one step of its actor in the network of the plan (`specs/Acts`, MakesOwn,
//! MakesTake, MakesPut, MakesGrant), and its next step is one that it can make, or it has none (`specs/Turns`, MakesTurn). [`actors`]
//! builds those of an accepted plan.
#![tactic(auto)]

mod act;
mod actor;
mod inside;
mod node;
mod node_actor;
mod plan_actors;
mod plan_switches;
mod room;
mod switch_actor;
mod turn;

pub use act::Act;
pub use actor::Actor;
pub use node::Node;
pub use plan_actors::actors;
pub use room::{has_room, without};
pub use turn::Turn;
