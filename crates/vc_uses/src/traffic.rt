//! What the headline gives to whoever looks at a network: after a replay, after a run in threads, or after events that a scheduler of
//! one's own made (`events_lead_on` of vc_core).
ghost use Rattle.std.specs.Prelude.{◌≡◌, ◌-◌, ◌≤◌, ◌<◌, ◌++◌, List, length};
ghost use Rattle.std.specs.Option.{option_copied, option_to_list};
ghost use Rattle.vc_accepted.specs.NetworkOf.{network_of};
ghost use Rattle.vc_core.specs.Replay.{Replays};
ghost use Rattle.vc_core.specs.State.{shown, state_of};
ghost use Rattle.vc_core.specs.declared.event.Event.{Event};
ghost use Rattle.vc_network.specs.Views.{view};
ghost use Rattle.vc_plan.specs.declared.plan.Plan.{Plan};

use vc_core::Network;

/// How many outputs on a channel are not finished: none or one. No test is needed before the subtraction.
pub fn under_way(network: &Network, chan: u16) -> u64
    requires { (p : Plan) × (events : List Event)
        × Replays p events (state_of network.now) × (chan < length p.channels) }
    ensures is { (p : Plan) (events : List Event) →
        Replays p events (state_of network.now) → chan < length p.channels →
        result ≡ length (view (network_of p) (shown (state_of network.now)) chan).offered
        - (view (network_of p) (shown (state_of network.now)) chan).finished }
    ensures one { result ≤ 1 }
{
    network.offered(chan).len() as u64 - network.finished(chan)
}

/// The message that was offered on a channel and has not been taken, if there is one: it comes after those that have been.
pub fn to_come(network: &Network, chan: u16) -> Option<&[u8]>
    ensures { (p : Plan) (events : List Event) →
        Replays p events (state_of network.now) → chan < length p.channels →
        (view (network_of p) (shown (state_of network.now)) chan).offered
        ≡ (view (network_of p) (shown (state_of network.now)) chan).taken
        ++ option_to_list (option_copied result) }
{
    network.offered(chan).get(network.taken(chan).len())
}
