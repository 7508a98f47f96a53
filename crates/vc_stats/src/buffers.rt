//! How full receive buffers are, and for how long.
ghost use Rattle.std.specs.Prelude.{◌≡◌, ◌==◌, ◌&&◌, ◌<◌, ◌∷◌, ◌++◌, [], ℕ, cond, List, length, OnOk};
ghost use Rattle.vc_accepted.specs.Begin.{begin_of};
ghost use Rattle.vc_accepted.specs.NetworkOf.{network_of};
ghost use Rattle.vc_core.specs.PossibleEvents.{NetworkState};
ghost use Rattle.vc_core.specs.State.{MakesEvent, State, shown, state_of};
ghost use Rattle.vc_network.specs.Network.{begins};
ghost use Rattle.vc_plan.specs.declared.plan.Plan.{Plan};
ghost use Rattle.vc_stats.specs.Buffers.{AreBuffersOf, occupancy_at};
ghost use Rattle.vc_stats.specs.Private.Buffers.{buffer_in, holding};

use crate::occupancy::Occupancy;
use std::alloc::Global;
use vc_core::{Act, Event, Network};
use vc_packets::Memory;

/// The links of an actor, of which a node has four.
const LINKS: usize = 32;

/// How full the receive buffer of each link of each actor is at most, and for how long it holds a token. A buffer past the last entry held
/// none.
#[derive(Drop)]
pub(crate) struct Buffers {
    // by actor and link
    buffers: Vec<Occupancy>,
}

// The link whose buffer may hold another number of tokens after an act.
fn buffer_of(act: &Act) -> Option<u8>
    ensures { result ≡ buffer_in act.now }
{
    match act {
        Act::Take { link, .. } | Act::Pass { link } => Some(*link),
        _ => None,
    }
}

impl Buffers {
    /// Of a run that is about to begin.
    pub(crate) fn new(alloc: Global) -> Buffers
        ensures { (p : Plan) (x : NetworkState) →
            x ≡ begins (network_of p) (begin_of p) → AreBuffersOf result [] x }
    {
        Buffers {
            buffers: Vec::new(alloc),
        }
    }

    /// That of an actor's link.
    pub(crate) fn at(&self, actor: u16, link: u8) -> Occupancy
        ensures { result ≡ occupancy_at self.now actor link }
    {
        match self
            .buffers
            .get(LINKS * usize::from(actor) + usize::from(link))
        {
            Some(occupancy) => *occupancy,
            None => Occupancy::unused(),
        }
    }

    // There is such an entry.
    fn reach(&mut self, place: usize) -> Result<(), Memory>
        requires { place < 65536 }
        ensures within { OnOk result (place < length self.new.buffers.items) }
        ensures same { OnOk result ((actor link : ℕ) →
            occupancy_at self.new actor link ≡ occupancy_at self.old actor link) }
    {
        for _ in self.buffers.len()..place + 1 {
            self.buffers.push(Occupancy::unused())?;
        }
        Ok(())
    }

    // The buffer of an actor's link holds so many tokens, from the next event on.
    fn hold(&mut self, actor: u8, link: u8, tokens: u64, events: u64) -> Result<(), Memory>
        requires { link < 32 }
        ensures { OnOk result ((k l : ℕ) → l < 32 → occupancy_at self.new k l ≡
            cond (k == actor && l == link) (holding tokens events (occupancy_at self.old k l))
            (occupancy_at self.old k l)) }
    {
        let place = LINKS * usize::from(actor) + usize::from(link);
        self.reach(place)?;
        self.buffers[place] = self.buffers[place].holding(tokens, events);
        Ok(())
    }

    /// An event came after so many others, and the network is the one after it. It costs time that does not depend on the network. It fails
    /// only when out of memory.
    pub(crate) fn follow(
        &mut self,
        network: &Network,
        event: &Event,
        before: u64,
    ) -> Result<(), Memory>
        ensures { OnOk result ((p : Plan) (xs : List NetworkState) (s : State) →
            AreBuffersOf self.old xs (shown s) → before ≡ length xs →
            MakesEvent p s event.now (state_of network.now) →
            AreBuffersOf self.new (xs ++ shown (state_of network.now) ∷ [])
            (shown (state_of network.now))) }
    {
        let Some(link) = buffer_of(&event.act) else {
            return Ok(());
        };
        if usize::from(link) >= LINKS {
            return Ok(());
        }
        let tokens = network.buffered(usize::from(event.actor), link);
        self.hold(event.actor, link, tokens as u64, before)
    }
}
