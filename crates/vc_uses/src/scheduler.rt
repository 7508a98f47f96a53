//! A scheduler of one's own.
ghost use Rattle.vc_core.specs.Replay.{Reached};
ghost use Rattle.vc_core.specs.State.{state_of};
ghost use Rattle.vc_plan.specs.declared.plan.Plan.{Plan};

use vc_core::{Event, Network, StepRefused, events_lead_on};
use vc_packets::Memory;

/// A scheduler's step: it tries an event, and lists it where it could be made. Whatever is tried, and in whatever order, the list leads
/// from the opening state to the network's, so that the headline holds there.
pub fn try_event(
    network: &mut Network,
    made: &mut Vec<Event>,
    event: &Event,
) -> Result<bool, Memory>
    ensures { (p : Plan) →
        Reached p made.old.items (state_of network.old) →
        Reached p made.new.items (state_of network.new) }
{
    events_lead_on();
    made.reserve(1)?;
    match network.step(event) {
        Ok(()) => {
            made.push_reserved(*event);
            Ok(true)
        }
        Err(StepRefused::NotEnabled) => Ok(false),
        Err(StepRefused::Memory) => Err(Memory),
    }
}
