//! Who waits for what: the text of what blocks each process of a network, and of where its packets are.
//!
//! The layer above knows of [`push_waits`] that the lines are those of the definitions (`specs/Waits`, `specs/Packets`): one for each part
//! of a process that does not go on by itself, with its path in the network file (`specs/Paths`), and one for each packet of an output
//! that is not finished, where it is. [`words_are_so`]: what such a line says of a part of a process is so.
#![tactic(auto)]

mod laws;
mod number;
mod packets;
mod paths;
mod port;
mod texts;
mod waits;

pub use laws::words_are_so;
pub use number::push_number;
pub use packets::{places, push_place, push_ports, push_waits};
pub use port::push_port;
pub use texts::push_texts;
pub use waits::{blocked_word, process_paths, push_blocked, push_part};
