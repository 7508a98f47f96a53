//! Events from the opening state on.
ghost use Rattle.std.specs.Prelude.{IfOk, IfErr};
ghost use Rattle.vc_core.specs.Replay.{Replays, RefusedAt};
ghost use Rattle.vc_core.specs.State.{state_of};

use crate::event::Event;
use crate::network::Network;
use crate::refused::{ReplayRefused, StepRefused};
use std::alloc::Global;
use vc_packets::Memory;
use vc_plan::Accepted;

/// Makes a list of events from the opening state on. The first event that is refused is answered with the network before it.
pub fn replay(
    alloc: Global,
    accepted: &Accepted,
    events: &[Event],
) -> Result<Network, ReplayRefused>
    ensures replayed { IfOk result
        (λ network. Replays accepted.now events.now (state_of network)) }
    ensures refused { IfErr result (λ refused. RefusedAt accepted.now events.now refused) }
{
    let mut network = match Network::new(alloc, accepted) {
        Ok(network) => network,
        Err(Memory) => {
            return Err(ReplayRefused {
                index: 0,
                state: None,
                why: StepRefused::Memory,
            });
        }
    };
    for (index, event) in events.iter().enumerate() {
        if let Err(why) = network.step(event) {
            return Err(ReplayRefused {
                index,
                state: Some(network),
                why,
            });
        }
    }
    Ok(network)
}
