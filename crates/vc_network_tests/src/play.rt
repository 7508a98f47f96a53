//! Networks whose events are made one by one.
use std::alloc::Global;
use std::test::Fail;
use vc_blocks::Messages;
use vc_core::{Act, Event, Network};
use vc_plan::Accepted;

/// A network as it goes on, with the events that were made.
#[derive(Drop)]
pub(crate) struct Play {
    pub(crate) network: Network,
    pub(crate) events: Vec<Event>,
}

impl Play {
    pub(crate) fn begin(alloc: Global, accepted: &Accepted) -> Result<Play, Fail> {
        Ok(Play {
            network: Network::new(alloc, accepted)?,
            events: Vec::new(alloc),
        })
    }

    /// Makes an event where it is enabled. The answer is whether it is.
    pub(crate) fn make(&mut self, actor: u8, act: Act) -> Result<bool, Fail> {
        let event = Event { actor, act };
        if !self.network.enabled(&event) {
            return Ok(false);
        }
        self.network.step(&event)?;
        self.events.push(event)?;
        Ok(true)
    }
}

/// Each message is there, in order.
fn same_messages(left: Messages<'_>, right: Messages<'_>) -> bool {
    left.len() == right.len() && left.iter().zip(right.iter()).all(|(x, y)| x == y)
}

/// Whether two networks show the same of a channel.
pub(crate) fn same_view(left: &Network, right: &Network, chan: u16) -> bool {
    same_messages(left.offered(chan), right.offered(chan))
        && same_messages(left.taken(chan), right.taken(chan))
        && left.finished(chan) == right.finished(chan)
        && left.stopped(chan) == right.stopped(chan)
        && left.place(chan) == right.place(chan)
}
