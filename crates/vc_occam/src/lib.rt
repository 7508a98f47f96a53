//! Processes of occam 2.1 on one node: their meaning, and their running.
//!
//! A [`Process`], as it is written, and what is asked of it are below, in vc_process, and are handed on here. Which communications
//! a process may make, what remains of it and what it may begin with are definitions over plain trees (`specs/Traces`,
//! `specs/Remains`, `specs/First`), for every word of the language.
//!
//! The layer above knows of a [`Running`] that [`Running::actions`] are the first moves of what remains, which
//! [`Running::list_actions`] puts in a list that the caller keeps, [`Running::lists`] is true exactly of them, and
//! [`Running::act`], [`Running::resume`], [`Running::finish`] and [`Running::receive`] each make exactly one step, whose
//! communications, followed by any trace of what remains, are a trace of what remained before (`specs/States`). [`Running::only_step`] names the only move where that is known
//! to be a step without a communication, [`Running::act_quietly`] makes one, and [`Running::make_steps`] makes many in a row;
//! [`Running::first_from`] finds the first move at a site from one on, without a list.
//!
//! Laws of the definitions, for every word of the language, are in `laws.rt`: where parts side by side keep their variables apart,
//! what a step makes, followed by any trace of what remains, is a trace of what remained before; each trace of a lawful process is
//! made by steps, so its two meanings agree (`specs/Completeness`), and by meetings alone where all its channels
//! are inside its node (`specs/Exchanges`); no step loses lawful use; each listed move can be made; an output
//! or input that begins waits until it is finished or has its message.
//!
//! A process runs as a tree of frames (`frame.rt`), one for each process that is written. A frame is an enum: each construct of the
//! language is a variant, which holds how far it is. What a frame stands for, the process that was written and what remains of it, is
//! said in `specs/Frames`. A part begins, ends and begins again by a change of its frame, without memory. Each kind of thing that a site
//! does is a type of its own (`site_step.rt`), which is handed down to the site (`go.rt`), so that the way there is compiled for each. It
//! does it there (`act.rt`), and each frame answers on the way up what it came to (`outcome.rt`): that it has ended, or what it begins with
//! next. A frame that has ended is left, and has no state of its own. Where an output meets an input inside the node, the message is taken
//! first, and then the output begins and is finished at once; the same comes of it as in the other order (`proofs/TakenFirst`).
//! A part of a PAR keeps what it came to (`Task`), and so does the whole: where that is nothing, or one step without a communication,
//! no moves are looked for. The parts of a PAR all go on, and since sites are in preorder the one that has a site is found by
//! halving. The sites that wait are noted by their channels (`waiters.rt`). A number is worked out at its
//! assignment, and bytes, which need memory, before the site is gone to. The invariant of a [`Running`] is that its frames are ones
//! that can be and what is kept of them is true, that the variables that its process changes are there, that its sites are in
//! preorder, and that parts side by side have no site in common and use channels and variables lawfully.
#![tactic(auto)]

mod act;
mod answer;
mod blocked;
mod blocked_parts;
mod copies;
mod find;
mod frame;
mod frame_moves;
mod frame_tree;
mod go;
mod guards;
mod inner_channels;
mod key;
mod laws;
mod mark;
mod meetings;
mod moves;
mod outcome;
mod receivers;
mod running;
mod site_step;
mod steps;
mod variables;
mod waiters;
mod waits;

pub use answer::Answer;
pub use blocked::Blocked;
pub use key::Key;
pub use laws::{
    exchanges_are_meetings, lawful_use_is_kept, listed_moves_can_be_made, sites_are_own,
    steps_are_traces, traces_are_made_by_steps, waiting_after,
};
pub use moves::Move;
pub use running::Running;
pub use steps::Steps;
pub use vc_process::{
    Branch, BytesExpr, ChannelUse, Cond, Datum, Expr, Guard, Op, Process, Rel, UseFault, Value,
    ValueKind, a_first_offender_refutes, check_use,
};
