//! The search for a cycle of dependencies, along which packets of an accepted plan might come to wait for one another.
//!
//! The ports of switches, each the beginning of a way, are the vertices of the channel dependency graph (Dally and Seitz, 1987). The
//! layer above knows of [`find_cycle`] that it answers none exactly where the ports have ranks that rise along each dependency, and
//! else the least cycle of dependencies (`Dependencies` of vc_plan's specs): the one with the fewest ports, and of those the first by
//! the ports in order.
//!
//! The dependencies are found by marks: stages to which packets come, with the header in front and where what is below it comes from.
//! Switches look up the front header alone. So a header that an input draws is followed once for a plan, whatever is below it, and what
//! is left when it has gone is joined with each mark of packets for which it is drawn. Each packet of a mark comes to its stage, and each
//! packet has a mark.
#![tactic(auto)]

mod cycle;
mod follow;
mod graph;
mod known;
mod mark;
mod marks;
mod meetings;
mod number;
mod round;
mod search;

pub use cycle::find_cycle;
