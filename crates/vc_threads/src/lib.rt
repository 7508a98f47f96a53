//! The network in threads: each node and each switch a worker of its own, joined to the others by rings that keep the order of their
//! tokens.
//!
//! What a [`worker`] does is a run of its actor by itself, stamped act by act (`specs/Runs`), and what its ring ends sent and received
//! is what the run put and took. [`merge`] makes one list of all workers' acts, by stamp, then actor. [`run_threads`] starts the
//! workers, each way of the plan being a ring between two of them (`specs/Rings`), joins them, and takes what is left off each ring: what
//! was taken off each way, and then what is left there, is what was put on it (`specs/Order`). So for every schedule the list is a run of the
//! network, which leads to the state that is put together from the actors and from what is left in the rings (`specs/Threads`).
//! [`run_until_ended`] is the same with a gate that closes once every process has ended.
#![tactic(auto)]

mod act_log;
mod gate;
mod jobs;
mod link;
mod merged_runs;
mod meter;
mod order;
mod outs;
mod pause;
mod report;
mod run;
mod spawn;
mod stamp;
mod threads;
mod until_ended;
mod work;
mod worker_state;

pub use act_log::{ActLog, ActorActs, NoActs};
pub use gate::{EndGate, Gate};
pub use link::{Ends, In, LinkRule, Out, Stamped};
pub use merged_runs::merge;
pub use meter::Meter;
pub use report::{Ending, Logged, Report};
pub use run::{ActorRun, Stop};
pub use spawn::ThreadFault;
pub use stamp::next_stamp;
pub use threads::{run_threads, run_threads_into, run_threads_unlogged};
pub use until_ended::{run_until_ended, run_until_ended_into, run_until_ended_unlogged};
pub use work::worker;
