//! The program `vcnet` without its streams: from the words of the command line to what is written and the status.
//!
//! What the words ask for is what `clap` finds in them (`specs/CommandLine`), and what is written and the status are those of the
//! check, of the run of so many events, or of the run in threads that they ask for, or of a line that is reported and reads nothing
//! (`specs/Program`, `specs/Status`), over any reader and any writer whose bytes are known.
#![tactic(auto)]

mod account;
mod arguments;
mod definition;
mod laws;
mod line;
mod line_fault;
mod progress;
mod words;

pub use account::Account;
pub use arguments::{command, progress_for};
pub use laws::lines_are_read;
pub use line::Line;
pub use line_fault::LineFault;
pub use progress::{Progress, Unit};
pub use vc_text::Meter;
pub use vc_trace::NamedFiles;
pub use words::{run_words, tell_memory, tell_no_text};
