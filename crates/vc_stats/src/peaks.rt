//! How many tokens are on wires at most.
ghost use Rattle.std.specs.Prelude.{◌≡◌, ◌≤◌, ◌<◌, ◌+◌, ◌*◌, ◌∷◌, ◌++◌, [], ℕ, List, length, slice_get, Some, IfOk, OnOk};
ghost use Rattle.vc_accepted.specs.Begin.{begin_of};
ghost use Rattle.vc_accepted.specs.NetworkOf.{network_of, port_at};
ghost use Rattle.vc_core.specs.PossibleEvents.{NetworkState};
ghost use Rattle.vc_core.specs.State.{MakesEvent, State, shown, state_of};
ghost use Rattle.vc_network.specs.Network.{actor_at, begins};
ghost use Rattle.vc_plan.specs.declared.plan.Plan.{Plan};
ghost use Rattle.vc_stats.specs.Peaks.{ArePeaksOf, AreWaysOf, AreWaysTo, peak_at};
ghost use Rattle.vc_stats.specs.Private.Peaks.{AreRaised, AreZero, may_put as may_put_by};

use crate::rows::Rows;
use std::alloc::Global;
use vc_core::{Act, Event, Network};
use vc_packets::Memory;
use vc_plan::{Plan, Spot, Wire};

/// How many tokens are on each way of each wire at most. Way 2 n goes from port one to port two of wire n, and way 2 n + 1 back.
#[derive(Drop)]
pub(crate) struct Peaks {
    // the ways, by the actor that puts tokens on them
    ways: Rows,
    // by way
    most: Vec<u64>,
}

/// The number of a node or switch among the actors, of which so many are nodes.
pub(crate) fn actor_of(nodes: usize, spot: Spot) -> u16
    requires { nodes ≤ 32 }
    ensures { (p : Plan) (link : ℕ) → nodes ≡ length p.nodes →
        result ≡ actor_at (network_of p) (port_at spot link) }
{
    match spot {
        Spot::Node(node) => u16::from(node),
        Spot::Switch(switch) => nodes as u16 + u16::from(switch),
    }
}

// Both ways of the n-th wire join the rows of the actors that put tokens on them.
fn add_wire(ways: &mut Rows, nodes: usize, n: usize, wire: Wire) -> Result<(), Memory>
    requires nodes { nodes ≤ 32 }
    requires wires { n < 256 }
    ensures { OnOk result ((p : Plan) → nodes ≡ length p.nodes → slice_get p.wires n ≡ Some wire →
        AreWaysTo (2 * n) p ways.old → AreWaysTo (2 * (n + 1)) p ways.new) }
{
    let way = 2 * n as u16;
    ways.add(Some(actor_of(nodes, wire.one.spot)), way)?;
    ways.add(Some(actor_of(nodes, wire.two.spot)), way + 1)
}

// The ways, by the actor that puts tokens on them.
fn ways_of(alloc: Global, plan: &Plan) -> Result<Rows, Memory>
    requires nodes { length plan.now.nodes ≤ 32 }
    requires wires { length plan.now.wires ≤ 256 }
    ensures { IfOk result (AreWaysOf plan.now) }
{
    let mut ways = Rows::new(alloc);
    for (n, wire) in plan.wires.as_slice().iter().enumerate() {
        add_wire(&mut ways, plan.nodes.len(), n, *wire)?;
    }
    Ok(ways)
}

// So many ways without a token.
fn zeros(alloc: Global, ways: usize) -> Result<Vec<u64>, Memory>
    ensures { IfOk result (λ most. AreZero ways most.items) }
{
    let mut most = Vec::new(alloc);
    for _ in 0..ways {
        most.push(0)?;
    }
    Ok(most)
}

// Whether an act may put a token on a way.
fn may_put(act: &Act) -> bool
    ensures { result ≡ may_put_by act.now }
{
    match act {
        Act::Put { .. } | Act::Fct { .. } => true,
        _ => false,
    }
}

// How many tokens stand on a way.
fn tokens_on(network: &Network, way: u16) -> u64
    ensures { result ≡ length ((shown (state_of network.now)).way way) }
{
    network.tokens_on(way / 2, way % 2 == 0) as u64
}

// The numbers of these ways are raised to how many tokens stand there.
fn raise_all(most: &mut Vec<u64>, ways: &[u16], network: &Network)
    ensures { AreRaised (shown (state_of network.now)) ways.now most.old.items most.new.items }
{
    for way in ways {
        let place = usize::from(*way);
        if place < most.len() {
            most[place] = most[place].max(tokens_on(network, *way));
        }
    }
}

impl Peaks {
    /// Of a run that is about to begin. It fails only when out of memory.
    pub(crate) fn new(alloc: Global, plan: &Plan) -> Result<Peaks, Memory>
        requires nodes { length plan.now.nodes ≤ 32 }
        requires wires { length plan.now.wires ≤ 256 }
        ensures { IfOk result (λ all. (x : NetworkState) →
            x ≡ begins (network_of plan.now) (begin_of plan.now) → ArePeaksOf all plan.now [] x) }
    {
        let ways = ways_of(alloc, plan)?;
        let most = zeros(alloc, 2 * plan.wires.len())?;
        Ok(Peaks { ways, most })
    }

    /// An event came, and the network is the one after it. It costs time in the number of the links of the event's actor.
    pub(crate) fn follow(&mut self, network: &Network, event: &Event)
        ensures { (p : Plan) (xs : List NetworkState) (s : State) →
            ArePeaksOf self.old p xs (shown s) →
            MakesEvent p s event.now (state_of network.now) →
            ArePeaksOf self.new p (xs ++ shown (state_of network.now) ∷ [])
            (shown (state_of network.now)) }
    {
        if !may_put(&event.act) {
            return;
        }
        raise_all(&mut self.most, self.ways.row(event.actor), network);
    }

    /// How many tokens stood on a way at most.
    pub(crate) fn most(&self, way: usize) -> u64
        ensures { result ≡ peak_at self.now.most.items way }
    {
        match self.most.get(way) {
            Some(most) => *most,
            None => 0,
        }
    }
}
