//! A monitor of a run.
ghost use Rattle.std.specs.Prelude.{◌≡◌, ◌<◌, ◌*◌, ◌/◌, ◌∷◌, ◌++◌, [], List, length, IfOk, OnOk};
ghost use Rattle.vc_accepted.specs.NetworkOf.{network_of, port_of};
ghost use Rattle.vc_core.specs.PossibleEvents.{NetworkState};
ghost use Rattle.vc_core.specs.Replay.{IsOpening};
ghost use Rattle.vc_core.specs.State.{MakesEvent, State, shown, state_of};
ghost use Rattle.vc_core.specs.declared.event.Event.{Event as Happening};
ghost use Rattle.vc_network.specs.Plan.{port_of as port_of_wire, wire};
ghost use Rattle.vc_plan.specs.declared.plan.Plan.{Plan as Given};
ghost use Rattle.vc_plan.specs.Accepted.{IsAccepted};
ghost use Rattle.vc_stats.specs.Monitor.{IsMonitorOf, Monitors, figures};
ghost use Rattle.vc_stats.specs.StateFigures.{figures_of, way_figures};

use crate::buffers::Buffers;
use crate::packets::Packets;
use crate::peaks::{Peaks, actor_of};
use crate::state_figures::{StateFigures, WayFigures};
use crate::stats::Stats;
use crate::unfinished::Unfinished;
use std::alloc::Global;
use vc_core::{Event, Network};
use vc_packets::Memory;
use vc_plan::{Plan, Port, Spot};
use vc_text::EventSink;

/// The counts of the events of a run, and the figures of the states between them.
#[derive(Drop)]
pub(crate) struct Monitor {
    stats: Stats,
    unfinished: Unfinished,
    peaks: Peaks,
    buffers: Buffers,
    packets: Packets,
}

// Port one or port two of a way's wire.
fn port_on(plan: &Plan, way: usize, is_one: bool) -> Port
    ensures port { port_of_wire (wire (network_of plan.now) (way / 2)) is_one ≡ port_of result }
    ensures few { IsAccepted plan.now → result.link < 32 }
{
    match plan.wires.as_slice().get(way / 2) {
        Some(wire) if is_one => wire.one,
        Some(wire) => wire.two,
        None => Port {
            spot: Spot::Node(0),
            link: 0,
        },
    }
}

impl Monitor {
    /// Of a run that is about to begin. It fails only when out of memory.
    pub(crate) fn new(alloc: Global, plan: &Plan) -> Result<Monitor, Memory>
        requires { IsAccepted plan.now }
        ensures { IfOk result (λ monitor. (s : State) →
            IsOpening plan.now s → Monitors monitor plan.now [] (shown s)) }
    {
        Ok(Monitor {
            stats: Stats::new(alloc),
            unfinished: Unfinished::new(alloc, plan)?,
            peaks: Peaks::new(alloc, plan)?,
            buffers: Buffers::new(alloc),
            packets: Packets::new(alloc),
        })
    }

    /// The counts of its events.
    pub(crate) fn stats(&self) -> &Stats
        ensures { result.now ≡ self.now.stats }
    {
        &self.stats
    }

    // The figures of a way of the plan.
    fn way(&self, plan: &Plan, way: usize) -> WayFigures
        requires plan { IsAccepted plan.now }
        requires way { way < 2 * length plan.now.wires }
        ensures { (es : List Happening) (xs : List NetworkState) (x : NetworkState) →
            IsMonitorOf self.now plan.now es xs x → result ≡ way_figures plan.now es xs way }
    {
        let start = port_on(plan, way, way % 2 == 0);
        let source = actor_of(plan.nodes.len(), start.spot);
        let end = port_on(plan, way, way % 2 != 0);
        let sink = actor_of(plan.nodes.len(), end.spot);
        let buffer = self.buffers.at(sink, end.link);
        WayFigures {
            packets: self.packets.whole(source, start.link),
            acks: self.packets.acks(source, start.link),
            most: self.peaks.most(way),
            buffered: buffer.most,
            waited: buffer.time.busy(self.stats.events()),
        }
    }

    // The figures of each way of the plan.
    fn ways(&self, alloc: Global, plan: &Plan) -> Result<Vec<WayFigures>, Memory>
        requires { IsAccepted plan.now }
        ensures { (es : List Happening) (xs : List NetworkState) (x : NetworkState) →
            IsMonitorOf self.now plan.now es xs x →
            IfOk result (λ ways. ways.items ≡ (figures_of plan.now es xs).ways) }
    {
        let mut ways = Vec::new(alloc);
        for way in 0..2 * plan.wires.len() {
            ways.push(self.way(plan, way))?;
        }
        Ok(ways)
    }

    /// The figures of the states between the events of a run of this plan. It fails only when out of memory.
    pub(crate) fn states(&self, alloc: Global, plan: &Plan) -> Result<StateFigures, Memory>
        requires { IsAccepted plan.now }
        ensures { (es : List Happening) (xs : List NetworkState) (x : NetworkState) →
            IsMonitorOf self.now plan.now es xs x →
            IfOk result (λ states. figures states ≡ figures_of plan.now es xs) }
    {
        let unfinished = self.unfinished.counts(alloc, self.stats.events())?;
        let ways = self.ways(alloc, plan)?;
        Ok(StateFigures { unfinished, ways })
    }

    // One event more, after which the network is this one.
    fn follow(&mut self, network: &Network, event: &Event) -> Result<(), Memory>
        ensures { OnOk result ((p : Given) (es : List Happening) (s : State) →
            Monitors self.old p es (shown s) → MakesEvent p s event.now (state_of network.now) →
            Monitors self.new p (es ++ event.now ∷ []) (shown (state_of network.now))) }
    {
        let before = self.stats.events();
        self.unfinished.follow(network, event, before);
        self.peaks.follow(network, event);
        self.buffers.follow(network, event, before)?;
        self.packets.follow(network, event)?;
        self.stats.count(event)
    }
}

/// Each event is counted, and none is kept.
impl EventSink for Monitor {
    ghost use Rattle.vc_core.specs.State.{shown};
    ghost use Rattle.vc_stats.specs.Monitor.{Monitors};

    type Fault = Memory;

    ghost holds = { λ _ monitor p es s. Monitors monitor p es (shown s) };

    fn keeps_none(&self) -> bool {
        false
    }

    fn record(&mut self, network: &Network, event: Event) -> Result<(), Memory> {
        self.follow(network, &event)
    }
}
