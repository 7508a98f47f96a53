//! Running a network event by event.
ghost use Rattle.std.specs.Prelude.{◌≡◌, ◌⊎◌, [], List, slice_get, IfOk, OnErr};
ghost use Rattle.vc_plan.specs.declared.channel.Channel.{Channel};
ghost use Rattle.vc_plan.specs.declared.plan.Plan.{Plan};
ghost use Rattle.vc_core.specs.Replay.{IsOpening};
ghost use Rattle.vc_core.specs.State.{State, shown, state_of, IsNetworkOf};
ghost use Rattle.vc_core.specs.declared.event.Event.{Event};
ghost use Rattle.vc_text.specs.RunText.{HasStopped, IsRunWithin, RunsPlan, StepsApart, StepsTogether};
ghost use Rattle.vc_text.specs.ChannelStates.{channel_of, channels_of};
ghost use Rattle.vc_text.specs.Streams.{Writes};
ghost use Rattle.vc_text.specs.Traffic.{traffic};
ghost use Rattle.vc_text.specs.Views.{AreViews, shown as traffic_of};

use crate::check::read_accepted;
use crate::event_log::EventLog;
use crate::event_sink::EventSink;
use crate::fault::RunFault;
use crate::one_node::read_together;
use crate::schedule::Schedule;
use crate::simulation::Simulation;
use crate::traffic::{ChannelView, write_channels};
use std::alloc::Global;
use std::io::{Read, Write};
use vc_core::{Close, Network};
use vc_packets::Memory;
use vc_plan::Accepted;
use vc_threads::Meter;

/// What a run made, and how it ended.
#[derive(Debug, Drop)]
pub struct StepReport {
    /// The events, in order.
    pub events: EventLog,
    /// How the run ended.
    pub close: Close,
}

/// What the channels of a network are and have done, in order. It fails only when out of memory.
pub fn views(alloc: Global, network: &Network) -> Result<Vec<ChannelView<'_>>, Memory>
    ensures { (p : Plan) → IsNetworkOf p (state_of network.now) →
        IfOk result (λ views. AreViews p (shown (state_of network.now)) views.items) }
{
    let mut views = Vec::new(alloc);
    for chan in 0..network.channels() {
        views.push(view_of(network, chan))?;
    }
    Ok(views)
}

/// What a channel of a network is and has done.
pub fn view_of(network: &Network, chan: u16) -> ChannelView<'_>
    ensures { (p : Plan) (x : Channel) →
        IsNetworkOf p (state_of network.now) → slice_get p.channels chan ≡ Some x →
        traffic_of result ≡ channel_of p (shown (state_of network.now)) chan x }
{
    ChannelView {
        name: network.name(chan),
        kind: network.kind(chan),
        offered: network.offered(chan).len(),
        taken: network.taken(chan),
        finished: network.finished(chan),
        is_stopped: network.stopped(chan),
    }
}

/// Writes the traffic of a network, through a buffer of 4,096 bytes. All memory is taken first, so running out of it writes nothing. If
/// the writer fails, it has got a prefix of the traffic.
pub fn write_traffic<W: Write>(
    alloc: Global,
    network: &Network,
    close: Close,
    writer: &mut W,
) -> Result<(), RunFault>
    ensures { (p : Plan) → IsNetworkOf p (state_of network.now) →
        Writes (W.contents writer.old) (W.contents writer.new)
        (traffic (channels_of p (shown (state_of network.now))) close) result }
{
    let views = views(alloc, network)?;
    write_channels(views.as_slice(), close, writer)
}

/// Runs an accepted network event by event, until no event is enabled or there are `limit` events, which go to a sink with the network
/// after each. The meter notes from time to time how many there are. The answer is the network after the run, and how it ended. The call
/// fails if memory runs out or the sink can't take an event. The sink is then as it was before the run, or has the events so far.
pub fn run_into<K: EventSink>(
    alloc: Global,
    accepted: &Accepted,
    events: &mut K,
    limit: u64,
    schedule: Schedule,
    meter: &Meter,
) -> Result<(Network, Close), K::Fault>
    requires { (s : State) → IsOpening accepted.now s →
        K.holds events.old events.old accepted.now [] s }
    ensures is { IfOk result (λ r. IsNetworkOf accepted.now (state_of r.0)) }
    ensures run { IfOk result (λ r. (es : List Event) ×
        K.holds events.old events.new accepted.now es (state_of r.0) ×
        IsRunWithin accepted.now schedule limit es (shown (state_of r.0)) r.1) }
    ensures stops { OnErr result ((events.new ≡ events.old) ⊎ HasStopped
        (K.holds events.old) (K.left events.old) events.new accepted.now schedule limit) }
{
    let mut run = Simulation::new(alloc, accepted)?;
    run.make_events(events, limit, schedule, meter)?;
    let close = run.close(limit)?;
    Ok((run.network, close))
}

/// Runs an accepted network event by event. The run goes in rounds over the actors, and ends where no event is enabled, or else after
/// `limit` events. The answer is the network after it, and what the run made.
fn run_accepted(
    alloc: Global,
    accepted: &Accepted,
    limit: u64,
) -> Result<(Network, StepReport), Memory>
    ensures is { IfOk result (λ r. IsNetworkOf accepted.now (state_of r.0)) }
    ensures run { IfOk result (λ r.
        IsRunWithin accepted.now Schedule.InTurn limit (r.1).events (shown (state_of r.0))
        (r.1).close) }
{
    let mut events = EventLog::new(alloc);
    let (network, close) = run_into(
        alloc,
        accepted,
        &mut events,
        limit,
        Schedule::InTurn,
        &Meter::new(),
    )?;
    Ok((network, StepReport { events, close }))
}

/// Runs an accepted network so, and writes its traffic.
fn run_plan<W: Write>(
    alloc: Global,
    accepted: &Accepted,
    writer: &mut W,
    limit: u64,
) -> Result<StepReport, RunFault>
    ensures { RunsPlan accepted.now (W.contents writer.old) (W.contents writer.new) limit result }
{
    let (network, report) = run_accepted(alloc, accepted, limit)?;
    write_traffic(alloc, &network, report.close, writer)?;
    Ok(report)
}

/// Reads a network file, runs the network event by event, and writes its traffic. The run goes in rounds over the actors, and ends
/// where no event is enabled, or else after `limit` events. The words of an actor's takes are those of the generator of seed 0 and the
/// actor's number. Where it fails, a front of the text was written if the writer failed, and else nothing.
pub fn run_step<R: Read, W: Write>(
    alloc: Global,
    reader: &mut R,
    writer: &mut W,
    limit: u64,
) -> Result<StepReport, RunFault>
    ensures { StepsApart (R.remaining reader.old)
        (W.contents writer.old) (W.contents writer.new) limit result }
{
    let accepted = read_accepted(alloc, reader)?;
    run_plan(alloc, &accepted, writer, limit)
}

/// Reads a network file, runs all its processes side by side on one node, with every channel inside it, and writes the traffic. A
/// network too large for one node is refused. It reports the events of that node. Where it fails, a front of the text was written if the
/// writer failed, and else nothing.
pub fn run_together<R: Read, W: Write>(
    alloc: Global,
    reader: &mut R,
    writer: &mut W,
    limit: u64,
) -> Result<StepReport, RunFault>
    ensures { StepsTogether (R.remaining reader.old)
        (W.contents writer.old) (W.contents writer.new) limit result }
{
    let accepted = read_together(alloc, reader)?;
    run_plan(alloc, &accepted, writer, limit)
}
