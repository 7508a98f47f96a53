//! The channels inside a node.
ghost use Rattle.std.specs.Prelude.{◌≡◌, ◌↔◌, [], IfOk, IsTrue};
ghost use Rattle.vc_process.specs.Usage.{among};

use std::alloc::Global;
use std::marker::Model;
use vc_packets::Memory;

/// The channels inside a node, in order, so that one is found by halving.
#[derive(Drop)]
pub(crate) struct InnerChannels {
    pub(crate) channels: Vec<u16>,
}

impl Model for InnerChannels {
    ghost use Rattle.std.specs.Prelude.{List, ℕ};
    ghost use Rattle.std.specs.List.Sorted.{IsNonDecreasing};

    ghost Value = { List ℕ };

    ghost view = { λ c. c.channels.items };

    ghost invariant = { λ c. IsNonDecreasing c.channels.items };
}

impl InnerChannels {
    /// These channels, which may be in any order.
    pub(crate) fn new(alloc: Global, channels: &[u16]) -> Result<InnerChannels, Memory>
        ensures { IfOk result (λ inside. among inside ≡ among channels.now) }
    {
        let mut channels = Vec::from_slice(alloc, channels)?;
        channels.sort()?;
        Ok(InnerChannels { channels })
    }

    /// Whether a channel is one of them.
    #[inline(never)]
    pub(crate) fn contains(&self, chan: u16) -> bool
        ensures { result ≡ among self.now chan }
    {
        self.channels.binary_search(&chan).is_ok()
    }

    /// Whether there is none.
    pub(crate) fn is_empty(&self) -> bool
        ensures { IsTrue result ↔ (self.now ≡ []) }
    {
        self.channels.is_empty()
    }
}
