//! The texts of the program: the traffic of a network, the line of a fault, and runs from a network's bytes to its traffic's.
//!
//! The layer above knows that what is written is exactly the text of what was reached (`specs/Traffic`, `specs/FaultLine`), or a
//! prefix of it if the writer failed (`specs/Streams`), over any reader and any writer whose bytes are known.
#![tactic(auto)]

mod check;
mod check_line;
mod close;
mod deadlock;
mod digits;
mod draws;
mod entry;
mod event_log;
mod event_sink;
mod events;
mod fault;
mod fault_line;
mod generators;
mod laws;
mod masks;
mod network_file;
mod one_node;
mod pieces;
mod plan_text;
mod read_line;
mod run;
mod schedule;
mod simulation;
mod step_options;
mod streams;
mod tail;
mod thread_options;
mod thread_run;
mod traffic;
mod unlogged;

pub use check::{accepted_text, read_accepted, run_check};
pub use close::close_of;
pub use deadlock::{cycle_text, run_deadlock};
pub use digits::put_digits;
pub use event_log::EventLog;
pub use event_sink::EventSink;
pub use events::Events;
pub use fault::RunFault;
pub use fault_line::{fault_text, write_fault};
pub use laws::a_seed_has_one_run;
pub use network_file::{NetworkFile, read_file};
pub use one_node::read_as;
pub use pieces::{Piece, WriteFailed, flush, put, put_last, put_texts};
pub use plan_text::{push_hop, push_last, push_way};
pub use read_line::push_step;
pub use run::{StepReport, run_into, run_step, run_together, view_of, views, write_traffic};
pub use schedule::Schedule;
pub use step_options::StepOptions;
pub use streams::{read_all, write_text};
pub use tail::Tail;
pub use thread_options::ThreadOptions;
pub use thread_run::{run_net, run_net_unlogged};
pub use traffic::{ChannelView, push_counts, put_value, write_channels};
pub use unlogged::{run_step_unlogged, run_unlogged};
pub use vc_reader::{Path, ReadRefused, Step, Word, read_network};
pub use vc_threads::Meter;
pub use vc_waits::{push_number, push_port};
