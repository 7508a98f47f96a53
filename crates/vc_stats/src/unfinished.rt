//! For how many events outputs are not finished.
ghost use Rattle.std.specs.Prelude.{◌≡◌, ◌≤◌, ◌<◌, ◌∷◌, ◌++◌, [], List, length, map, IfOk};
ghost use Rattle.vc_accepted.specs.Begin.{begin_of};
ghost use Rattle.vc_accepted.specs.NetworkOf.{home_of, network_of};
ghost use Rattle.vc_core.specs.PossibleEvents.{NetworkState};
ghost use Rattle.vc_core.specs.State.{IsNetworkOf, MakesEvent, State, shown, state_of};
ghost use Rattle.vc_network.specs.Network.{begins};
ghost use Rattle.vc_network.specs.Plan as network;
ghost use Rattle.vc_plan.specs.declared.plan.Plan.{Plan};
ghost use Rattle.vc_stats.specs.Private.Times.{AreIdle, AreTurned, may_turn as may_turn_by};
ghost use Rattle.vc_stats.specs.Times.{AreOutputsOf, AreTimesOf, busy_of, source_on};
ghost use Rattle.vc_stats.specs.StateFigures.{is_unfinished as is_unfinished_in};

use crate::busy_time::BusyTime;
use crate::rows::Rows;
use std::alloc::Global;
use vc_core::{Act, Event, Network};
use vc_occam::Move;
use vc_packets::Memory;
use vc_plan::{Home, Plan};

/// For how many events of a run each channel has an output that is not finished.
#[derive(Drop)]
pub(crate) struct Unfinished {
    // the channels on virtual links, by the node that outputs on them
    outputs: Rows,
    // by channel
    times: Vec<BusyTime>,
}

// The node at end a or end b of a virtual link.
fn node_at(plan: &Plan, vlink: u16, is_a: bool) -> u8
    ensures { result ≡
        (network.end_of (network.virtual_link (network_of plan.now) vlink) is_a).node }
{
    match plan.vlinks.as_slice().get(usize::from(vlink)) {
        Some(link) if is_a => link.a.node,
        Some(link) => link.b.node,
        None => 0,
    }
}

// The node that outputs on a channel of this home, if that is a virtual link.
fn source_of(plan: &Plan, home: Home) -> Option<u16>
    ensures { result ≡ source_on (network_of plan.now) (home_of home) }
{
    match home {
        Home::Way { vlink, from_a } => Some(u16::from(node_at(plan, vlink, from_a))),
        Home::Inside { .. } => None,
    }
}

// The channels on virtual links, by the node that outputs on them.
fn outputs_of(alloc: Global, plan: &Plan) -> Result<Rows, Memory>
    requires { length plan.now.channels ≤ 512 }
    ensures { IfOk result (AreOutputsOf plan.now) }
{
    let mut outputs = Rows::new(alloc);
    for (chan, channel) in plan.channels.as_slice().iter().enumerate() {
        outputs.add(source_of(plan, channel.home), chan as u16)?;
    }
    Ok(outputs)
}

// So many channels, none of which is busy or was.
fn idle_times(alloc: Global, channels: usize) -> Result<Vec<BusyTime>, Memory>
    ensures { IfOk result (λ times. AreIdle channels times.items) }
{
    let mut times = Vec::new(alloc);
    for _ in 0..channels {
        times.push(BusyTime::Idle { busy: 0 })?;
    }
    Ok(times)
}

// Whether an act may begin or finish an output on a virtual link.
fn may_turn(act: &Act) -> bool
    ensures { result ≡ may_turn_by act.now }
{
    match act {
        Act::Proc(Move::Offer { .. }) | Act::Pass { .. } => true,
        _ => false,
    }
}

// Whether a channel has an output that is not finished.
fn is_unfinished(network: &Network, chan: u16) -> bool
    ensures { (p : Plan) → IsNetworkOf p (state_of network.now) → chan < length p.channels →
        result ≡ is_unfinished_in p chan (shown (state_of network.now)) }
{
    let offered = network.offered(chan).len() as u64;
    offered > 0 && offered - 1 == network.finished(chan)
}

// These channels are busy or not, as they are in the network, from the next event on.
fn turn_all(times: &mut Vec<BusyTime>, chans: &[u16], network: &Network, events: u64)
    ensures { (p : Plan) → IsNetworkOf p (state_of network.now) →
        length times.old.items ≡ length p.channels →
        AreTurned p (shown (state_of network.now)) events chans.now
        times.old.items times.new.items }
{
    for chan in chans {
        let place = usize::from(*chan);
        if place < times.len() {
            times[place] = times[place].turned(is_unfinished(network, *chan), events);
        }
    }
}

impl Unfinished {
    /// Of a run that is about to begin. It fails only when out of memory.
    pub(crate) fn new(alloc: Global, plan: &Plan) -> Result<Unfinished, Memory>
        requires { length plan.now.channels ≤ 512 }
        ensures { IfOk result (λ all. (x : NetworkState) →
            x ≡ begins (network_of plan.now) (begin_of plan.now) → AreTimesOf all plan.now [] x) }
    {
        let outputs = outputs_of(alloc, plan)?;
        let times = idle_times(alloc, plan.channels.len())?;
        Ok(Unfinished { outputs, times })
    }

    /// An event came after so many others. The network is the one after it. It costs time in the number of the channels that the event's
    /// node outputs.
    pub(crate) fn follow(&mut self, network: &Network, event: &Event, before: u64)
        ensures { (p : Plan) (xs : List NetworkState) (s : State) →
            AreTimesOf self.old p xs (shown s) → before ≡ length xs →
            MakesEvent p s event.now (state_of network.now) →
            AreTimesOf self.new p (xs ++ shown (state_of network.now) ∷ [])
            (shown (state_of network.now)) }
    {
        if !may_turn(&event.act) {
            return;
        }
        turn_all(
            &mut self.times,
            self.outputs.row(event.actor),
            network,
            before,
        );
    }

    /// By channel, after how many of so many events it had an output that was not finished. It fails only when out of memory.
    pub(crate) fn counts(&self, alloc: Global, events: u64) -> Result<Vec<u64>, Memory>
        ensures { IfOk result (λ counts. counts.items ≡
            map (λ time. busy_of time events) self.now.times.items) }
    {
        let mut counts = Vec::new(alloc);
        for time in &self.times {
            counts.push(time.busy(events))?;
        }
        Ok(counts)
    }
}
