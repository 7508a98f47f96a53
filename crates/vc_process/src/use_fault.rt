//! Why processes may not run side by side.
ghost use Rattle.std.specs.Prelude.{◌≡◌};
ghost use Rattle.vc_process.specs.declared.use_fault.UseFault.TheVariants as fault;

use thiserror::Error;
use vc_packets::Memory;

/// What `check_use` found: the first PAR or replicated SEQ, by site, with unlawful use.
#[derive(Clone, Copy, Debug, PartialEq, Eq, Drop, Error)]
pub enum UseFault {
    /// Two parts of the PAR output on this channel, or two input on it.
    #[error("two parts of a PAR use channel {0} alike")]
    Chan(u16),
    /// One part of the PAR changes this variable and another uses it; or the body of the replicated SEQ changes its index.
    #[error("variable {0} is changed where it may not be")]
    Var(u8),
    /// There was no memory for the check.
    #[error("there is no memory")]
    Memory,
}

impl From<Memory> for UseFault {
    ghost from_gives = { λ _ why. why ≡ fault.Memory };

    fn from(_error: Memory) -> UseFault {
        UseFault::Memory
    }
}
