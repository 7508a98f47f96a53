//! Packets that are sought at a node.
ghost use Rattle.std.specs.Prelude.{◌↔◌, IsTrue};
ghost use Rattle.vc_core.specs.Private.Targets.{IsTarget};

use vc_packets::Mark;

/// The packets that are sought among those that reach a node.
#[derive(Clone, Copy, Drop)]
pub(crate) struct Target {
    /// The block whose pieces are sought.
    pub(crate) pieces: Option<u16>,
    /// The block whose acknowledges are sought.
    pub(crate) acks: Option<u16>,
}

impl Target {
    /// Whether a packet with this body and mark is sought.
    pub(crate) fn is(self, body: &[u8], mark: Mark) -> bool
        ensures { IsTrue result ↔ IsTarget self (record { body = body.now; mark = mark }) }
    {
        let [high, low, load @ ..] = body else {
            return false;
        };
        let block = u16::from_be_bytes([*high, *low]);
        match mark {
            Mark::Eop if load.is_empty() => self.acks == Some(block),
            Mark::Eop => load.len() == 32 && self.pieces == Some(block),
            Mark::Eom => load.len() <= 32 && self.pieces == Some(block),
        }
    }
}
