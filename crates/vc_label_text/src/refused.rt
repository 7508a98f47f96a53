//! Why a network file without labelling is refused.
ghost use Rattle.std.specs.Prelude.{◌≡◌};
ghost use Rattle.vc_label_text.specs.declared.refused.LabelRefused.TheVariants.{Memory as OutOfMemory};

use crate::cause::LabelCause;
use std::fmt::{self, Debug, Formatter, Write};
use thiserror::Error;
use vc_packets::Memory;
use vc_plan::Refusal;
use vc_reader::ReadRefused;

/// Why a network file without labelling is refused.
#[derive(Drop, Error)]
pub enum LabelRefused {
    /// The text is no network.
    #[error("the text is no network: {0}")]
    Text(ReadRefused),
    /// The network can't be labelled.
    #[error("the network can't be labelled")]
    Network(LabelCause),
    /// The plan of the file that was made is refused.
    #[error(transparent)]
    Plan(Refusal),
    /// There was no memory.
    #[error("there is no memory")]
    Memory,
}

impl Debug for LabelRefused {
    // by hand, since a plan shows no text
    fn fmt<W: Write>(&self, f: &mut Formatter<W>) -> fmt::Result {
        match self {
            LabelRefused::Text(refused) => write!(f, "Text({refused:?})"),
            LabelRefused::Network(cause) => write!(f, "Network({cause:?})"),
            LabelRefused::Plan(refusal) => write!(f, "Plan({:?})", refusal.why),
            LabelRefused::Memory => f.write_str("Memory"),
        }
    }
}

impl From<Memory> for LabelRefused {
    ghost from_gives = { λ _ why. why ≡ OutOfMemory };

    fn from(_error: Memory) -> LabelRefused {
        LabelRefused::Memory
    }
}
