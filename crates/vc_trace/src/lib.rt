//! The trace of a run: its events as text, a line each.
//!
//! The layer above knows that a traced run writes the text of its events and then its traffic (`specs/TraceText`, `specs/EventText`), or
//! a prefix of that if the writer failed, over any reader and any writer whose bytes are known. The text goes through a buffer of
//! 4,096 bytes, so it takes no memory of its own. A run event by event writes each event as it happens: if memory runs out, the lines of
//! the events so far have been written.
//!
//! A replay reads such lines, makes their events, and writes the traffic of the state that they lead to, or the first line that is not
//! that of an event which can happen (`specs/Replay`), without its control characters (`specs/Escapes`). What it reads from a line counts
//! only where the line is exactly the one that the trace writes for it. No line of an event that can happen is refused, in a network whose
//! names differ, as those of files do.
#![tactic(auto)]

mod escape;
mod event_line;
mod event_reader;
mod event_text;
mod fields;
mod line;
mod line_buffer;
mod move_verb;
mod named_files;
mod names;
mod number;
mod output;
mod refused_line;
mod replay;
mod replayed;
mod step_run;
mod thread_run;
mod trace_sink;
mod verb;
mod word;
mod words;

pub use named_files::{NamedFile, NamedFiles};
pub use replay::run_replay;
pub use replayed::Replayed;
pub use step_run::trace_step;
pub use thread_run::trace_net;
