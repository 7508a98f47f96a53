//! Why nothing is made of a network.
ghost use Rattle.std.specs.Prelude.{◌≡◌};
ghost use Rattle.vc_label_text.specs.declared.unmade.Unmade.TheVariants.{Memory as OutOfMemory};

use crate::cause::LabelCause;
use std::alloc::{AllocError, AllocFailed};
use vc_packets::Memory;

/// Why nothing is made of a network.
#[derive(Drop)]
pub(crate) enum Unmade {
    /// It can't be labelled.
    Network(LabelCause),
    /// There was no memory.
    Memory,
}

impl From<Memory> for Unmade {
    ghost from_gives = { λ _ why. why ≡ OutOfMemory };

    fn from(_error: Memory) -> Unmade {
        Unmade::Memory
    }
}

impl From<AllocError> for Unmade {
    ghost from_gives = { λ _ why. why ≡ OutOfMemory };

    fn from(_error: AllocError) -> Unmade {
        Unmade::Memory
    }
}

impl<T: Drop> From<AllocFailed<T>> for Unmade {
    ghost from_gives = { λ _ why. why ≡ OutOfMemory };

    fn from(_error: AllocFailed<T>) -> Unmade {
        Unmade::Memory
    }
}
