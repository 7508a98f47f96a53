//! Processes of occam 2.1 as they are written: their words, their expressions and what these are worth, what they use and what they
//! may be. How they run is said above, in vc_occam.
//!
//! A [`Process`] is written over channels and variables by their numbers; its sites are numbered in preorder
//! (`specs/Numbering`). What expressions are worth, which use in parallel is lawful, how channels are used and what is asked of a
//! whole process are definitions over plain trees (`specs/Values`, `specs/Lawful`, `specs/ChannelUses`, `specs/ProcessLimits`), for
//! every word of the language.
//!
//! A variable holds a [`Datum`]. A message of another length than 8 on a channel of whole numbers is worth the number of its first
//! eight bytes, missing ones being 0 (`specs/Messages`).
//!
//! [`check_use`] accepts exactly the processes that use channels and variables lawfully, and else reports the first offender. Of each
//! PAR it lists what its parts use, puts that in order, and compares all uses of one thing with the first of them (`conflicts.rt`).
//! That what it says against a process is right, and that there is nothing else to say, is a law (`laws.rt`).
#![tactic(auto)]

mod asked;
mod bytes_expression;
mod channel_use;
mod condition;
mod conflicts;
mod copies;
mod datum;
mod depth;
mod evaluation;
mod expression;
mod laws;
mod limits;
mod operator;
mod process;
mod process_limits;
mod relation;
mod renaming;
mod usages;
mod use_check;
mod use_fault;
mod used;
mod uses;
mod value;
mod value_kind;
mod written;

pub use bytes_expression::BytesExpr;
pub use channel_use::ChannelUse;
pub use condition::Cond;
pub use datum::{Datum, number_in};
pub use expression::Expr;
pub use laws::a_first_offender_refutes;
pub use operator::Op;
pub use process::{Branch, Guard, Process};
pub use relation::Rel;
pub use use_check::check_use;
pub use use_fault::UseFault;
pub use value::Value;
pub use value_kind::ValueKind;
