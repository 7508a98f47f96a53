//! Why an event or a list of events is refused.
use crate::network::Network;
use std::fmt::{self, Debug, Formatter, Write};
use thiserror::Error;
use vc_packets::Memory;

/// Why a step was not made. The network is as it was.
#[derive(Clone, Copy, Debug, PartialEq, Eq, Drop, Error)]
pub enum StepRefused {
    /// The event is not enabled.
    #[error("the event is not enabled")]
    NotEnabled,
    /// There was no memory for it.
    #[error("there is no memory")]
    Memory,
}

impl From<Memory> for StepRefused {
    ghost use Rattle.std.specs.Prelude.{◌≡◌};
    ghost use Rattle.vc_core.specs.declared.refused.StepRefused.TheVariants as refused;

    ghost from_gives = { λ _ why. why ≡ refused.Memory };

    fn from(_error: Memory) -> StepRefused {
        StepRefused::Memory
    }
}

/// Why a list of events was not replayed to its end.
#[derive(Drop, Error)]
#[error("event {index} is refused: {why}")]
pub struct ReplayRefused {
    /// The number of the event that was refused, from 0.
    pub index: usize,
    /// The network before that event; nothing only where the opening state found no memory.
    pub state: Option<Network>,
    /// Why it was refused.
    pub why: StepRefused,
}

impl Debug for ReplayRefused {
    // by hand, since a network shows no text
    fn fmt<W: Write>(&self, f: &mut Formatter<W>) -> fmt::Result {
        write!(
            f,
            "ReplayRefused {{ index: {}, why: {:?}, .. }}",
            self.index, self.why
        )
    }
}
