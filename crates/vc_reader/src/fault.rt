//! What is wrong with a value of the network file.
ghost use Rattle.std.specs.Prelude.{◌≡◌};
ghost use Rattle.vc_reader.specs.declared.fault.Stop.TheVariants.{Memory as OutOfMemory};

use crate::path::Path;
use std::alloc::{AllocError, AllocFailed};
use vc_packets::Memory;

/// The kinds of faults.
#[derive(Clone, Copy, Debug, PartialEq, Eq, Drop)]
pub enum Why {
    /// A field is missing.
    Missing,
    /// A value is of another kind than its place wants: also a list of another length, a text that is none of the words that may
    /// be there, a text that is no name, and a name that was given before.
    Kind,
    /// A whole number is out of its range, or bytes are too long.
    Range,
    /// A field, word or name is unknown.
    Unknown,
}

/// A fault, with the path to where it is.
#[derive(Drop)]
pub struct Fault {
    /// What is wrong.
    pub why: Why,
    /// Where it is.
    pub path: Path,
}

/// Why a value was not read to its end.
#[derive(Drop)]
pub enum Stop {
    /// There was no memory.
    Memory,
    /// The value's first fault.
    Fault(Fault),
}

impl From<Memory> for Stop {
    ghost from_gives = { λ _ stop. stop ≡ OutOfMemory };

    fn from(_error: Memory) -> Stop {
        Stop::Memory
    }
}

impl From<AllocError> for Stop {
    ghost from_gives = { λ _ stop. stop ≡ OutOfMemory };

    fn from(_error: AllocError) -> Stop {
        Stop::Memory
    }
}

impl<T: Drop> From<AllocFailed<T>> for Stop {
    ghost from_gives = { λ _ stop. stop ≡ OutOfMemory };

    fn from(_error: AllocFailed<T>) -> Stop {
        Stop::Memory
    }
}
