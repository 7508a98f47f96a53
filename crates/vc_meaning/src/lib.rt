//! A network means its program: each state of an accepted network means one state of the program of its processes (`vc_program`), and each
//! event keeps that meaning, or is one move of the program, with no premise on the network's wires. If the wires are free, a program that
//! always ends, ends on the network. Definitions and laws.
//!
//! A message has passed once both its output and its input, or a guard, have begun. Where one of the two has begun alone, the program's
//! process is before it. Where both have, it has the message, or the end of its output, before the network brings it
//! (`specs/Meaning`). So the network refines the program in the sense of Abadi and Lamport (1991): whatever it shows is a state that a
//! schedule of the program leads to.
#![tactic(auto)]

ghost use Rattle.vc_meaning.specs.Endings.{EndsAnywhere};
ghost use Rattle.vc_meaning.specs.Events.{EventsKeepMeaning, OpeningMeans, StatesAreMeant};

/// The opening state of an accepted network means the opening state of its program.
pub fn the_opening_means_the_program()
    ensures { OpeningMeans }
{}

/// Wherever a run of an accepted network has come, under either waiting rule: if its state means one that a schedule leads to, then after
/// the next event the state means the same, or means what one more move leads to. An event that is no move of a process keeps the
/// meaning.
pub fn events_keep_the_meaning()
    ensures { EventsKeepMeaning }
{}

/// Each state to which events of an accepted network lead, under either waiting rule, means a state to which a schedule of its program
/// leads, with no more moves than events.
pub fn each_state_means_one()
    ensures { StatesAreMeant }
{}

/// A program that always ends, ends on its network, whatever the order of its events. If no schedule of the program of an accepted plan has
/// more than so many moves, and the network's ports have ranks, then under either waiting rule no events go on for ever.
pub fn ends_anywhere()
    ensures { EndsAnywhere }
{}
