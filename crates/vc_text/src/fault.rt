//! Why a run gives no result.
ghost use Rattle.std.specs.Prelude.{◌≡◌};
ghost use Rattle.vc_text.specs.Faults.{fault_of};
ghost use Rattle.vc_text.specs.declared.fault.RunFault.TheVariants.{Memory as OutOfMemory, Text as InText, Threads as InThreads};

use std::alloc::{AllocError, AllocFailed};
use std::fmt::{self, Debug, Formatter, Write};
use thiserror::Error;
use vc_label_text::{LabelCause, LabelRefused};
use vc_packets::Memory;
use vc_plan::Refusal;
use vc_reader::ReadRefused;
use vc_threads::ThreadFault;

/// Why a run gives no result.
#[derive(Drop, Error)]
pub enum RunFault {
    /// The reader failed, had too many bytes, or didn't end.
    #[error("the network can't be read")]
    Read,
    /// The writer failed or took nothing. What went out is a front of the text.
    #[error("the output can't be written")]
    Write,
    /// The text is no network.
    #[error("the text is no network: {0}")]
    Text(ReadRefused),
    /// The network has no labelling, and can't be labelled.
    #[error("the network can't be labelled")]
    Network(LabelCause),
    /// The plan is refused.
    #[error(transparent)]
    Plan(Refusal),
    /// The threads gave no report.
    #[error("the threads gave no report: {0}")]
    Threads(ThreadFault),
    /// There was no memory.
    #[error("there is no memory")]
    Memory,
}

impl Debug for RunFault {
    // by hand, since a plan shows no text
    fn fmt<W: Write>(&self, f: &mut Formatter<W>) -> fmt::Result {
        match self {
            RunFault::Read => f.write_str("Read"),
            RunFault::Write => f.write_str("Write"),
            RunFault::Text(refused) => write!(f, "Text({refused:?})"),
            RunFault::Network(cause) => write!(f, "Network({cause:?})"),
            RunFault::Plan(refusal) => write!(f, "Plan({:?})", refusal.why),
            RunFault::Threads(why) => write!(f, "Threads({why:?})"),
            RunFault::Memory => f.write_str("Memory"),
        }
    }
}

impl From<Memory> for RunFault {
    ghost from_gives = { λ _ fault. fault ≡ OutOfMemory };

    fn from(_error: Memory) -> RunFault {
        RunFault::Memory
    }
}

impl From<AllocError> for RunFault {
    ghost from_gives = { λ _ fault. fault ≡ OutOfMemory };

    fn from(_error: AllocError) -> RunFault {
        RunFault::Memory
    }
}

impl<T: Drop> From<AllocFailed<T>> for RunFault {
    ghost from_gives = { λ _ fault. fault ≡ OutOfMemory };

    fn from(_error: AllocFailed<T>) -> RunFault {
        RunFault::Memory
    }
}

impl From<ReadRefused> for RunFault {
    ghost from_gives = { λ refused fault. fault ≡ InText refused };

    fn from(refused: ReadRefused) -> RunFault {
        RunFault::Text(refused)
    }
}

impl From<ThreadFault> for RunFault {
    ghost from_gives = { λ why fault. fault ≡ InThreads why };

    fn from(why: ThreadFault) -> RunFault {
        RunFault::Threads(why)
    }
}

impl From<LabelRefused> for RunFault {
    ghost from_gives = { λ refused fault. fault ≡ fault_of refused };

    fn from(refused: LabelRefused) -> RunFault {
        match refused {
            LabelRefused::Text(refused) => RunFault::Text(refused),
            LabelRefused::Network(cause) => RunFault::Network(cause),
            LabelRefused::Plan(refusal) => RunFault::Plan(refusal),
            LabelRefused::Memory => RunFault::Memory,
        }
    }
}
