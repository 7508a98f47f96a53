//! The short form of a network file, made whole: reads a file without labelling, labels it and writes the whole file.
//!
//! [`whole_file`] reads the text with `read_bare`, finds in the processes what the file leaves out, and makes the labelling. The text that
//! it makes is then read by `read_network`, and judged by `check` and `find_cycle`, and its nodes, switches, wires and channels are held
//! against those of the file. It is answered only if all of these agree (`specs/Labelled`). [`label_text`] answers its text alone.
//!
//! Which texts are in the short form is said in `specs/Short`.
#![tactic(auto)]

mod cause;
mod channels;
mod file;
mod judge;
mod labeller;
mod links;
mod nodes;
mod refused;
mod short;
mod unmade;
mod uses;
mod wires;
mod writer;

pub use cause::{ChannelEnd, LabelCause, cause_text};
pub use file::WholeFile;
pub use labeller::{label_text, whole_file};
pub use refused::LabelRefused;
pub use short::lacks_vlinks;
