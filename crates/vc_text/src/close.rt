//! How a run ends.
ghost use Rattle.std.specs.Prelude.{◌≡◌, List, IfOk};
ghost use Rattle.vc_core.specs.Replay.{Replays};
ghost use Rattle.vc_core.specs.State.{shown, state_of, IsNetworkOf};
ghost use Rattle.vc_core.specs.declared.event.Event.{Event};
ghost use Rattle.vc_plan.specs.declared.plan.Plan.{Plan};
ghost use Rattle.vc_text.specs.Close.{ClosesIn, OnlyProcessesWait};

use crate::simulation::goes_on;
use vc_core::{Close, Network};
use vc_packets::Memory;

/// How a run ends that came to the state of a network: done where every process has ended, as runs in threads do, quiet where no event can
/// happen, and at its limit where one can. The network stays as it is. It fails only when out of memory.
pub fn close_of(network: &mut Network) -> Result<Close, Memory>
    ensures closes { (p : Plan) → IsNetworkOf p (state_of network.old) →
        IfOk result (ClosesIn p (shown (state_of network.old))) }
    ensures waits { (p : Plan) (events : List Event) → Replays p events (state_of network.old) →
        IfOk result (OnlyProcessesWait p (shown (state_of network.old))) }
    ensures same { state_of network.new ≡ state_of network.old }
{
    if network.ended() {
        return Ok(Close::Done);
    }
    if goes_on(network)? {
        Ok(Close::Limit)
    } else {
        Ok(Close::Quiet)
    }
}
