//! What is wrong with a command line.
ghost use Rattle.std.specs.Prelude.{◌≡◌};
ghost use Rattle.vc_words.specs.declared.line_fault.LineFault.TheVariants.{Memory as OutOfMemory};

use std::alloc::AllocError;
use thiserror::Error;

/// Why the words ask for nothing that can be done.
#[derive(Debug, Drop, Error)]
pub enum LineFault {
    /// They are a bad command line, or ask for help.
    #[error("{text}")]
    Bad {
        /// What to print.
        text: String,
        /// The program's status: 0 for help, else 5.
        status: u8,
    },
    /// There was no memory to read them.
    #[error("there is no memory")]
    Memory,
}

impl From<AllocError> for LineFault {
    ghost from_gives = { λ _ fault. fault ≡ OutOfMemory };

    fn from(_error: AllocError) -> LineFault {
        LineFault::Memory
    }
}
