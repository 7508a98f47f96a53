//! Nodes, switches and channels by their names.
ghost use Rattle.std.specs.Prelude.{◌≡◌, ◌+◌, IfOk, length};
ghost use Rattle.vc_plan.specs.Accepted.{IsAccepted};
ghost use Rattle.vc_plan.specs.Names.{actor_name, channel_name};
ghost use Rattle.vc_trace.specs.Private.EventOf.{IsNamed};
ghost use Rattle.vc_trace.specs.Private.Names.{AreNamesOf, AreNumbered, number_at};

use std::alloc::Global;
use std::collections::HashMap;
use vc_packets::Memory;
use vc_plan::Plan;

/// The numbers of a plan's actors, by their names.
fn actors_of(alloc: Global, plan: &Plan) -> Result<HashMap<&[u8], u8>, Memory>
    requires { IsAccepted plan.now }
    ensures { IfOk result (λ actors. IsNamed plan.now → AreNumbered
        (actor_name plan.now) (length plan.now.nodes + length plan.now.switches) actors) }
{
    let mut actors = HashMap::new(alloc);
    for actor in 0..plan.nodes.len() + plan.switches.len() {
        actors.insert(plan.actor_name(actor), actor as u8)?;
    }
    Ok(actors)
}

/// The numbers of a plan's channels, by their names.
fn channels_of(alloc: Global, plan: &Plan) -> Result<HashMap<&[u8], u16>, Memory>
    requires { IsAccepted plan.now }
    ensures { IfOk result (λ channels. IsNamed plan.now → AreNumbered
        (channel_name plan.now) (length plan.now.channels) channels) }
{
    let mut channels = HashMap::new(alloc);
    for chan in 0..plan.channels.len() {
        channels.insert(plan.channel_name(chan), chan as u16)?;
    }
    Ok(channels)
}

/// The actors and channels of a plan, by their names.
#[derive(Drop)]
pub(crate) struct Names<'a> {
    actors: HashMap<&'a [u8], u8>,
    channels: HashMap<&'a [u8], u16>,
}

impl<'a> Names<'a> {
    /// Those of a plan. It fails only when out of memory.
    pub(crate) fn new(alloc: Global, plan: &'a Plan) -> Result<Names<'a>, Memory>
        requires { IsAccepted plan.now }
        ensures { IfOk result (λ names. IsNamed plan.now → AreNamesOf plan.now names) }
    {
        Ok(Names {
            actors: actors_of(alloc, plan)?,
            channels: channels_of(alloc, plan)?,
        })
    }

    /// The actor of this name, if there is one.
    pub(crate) fn actor(&self, name: &[u8]) -> Option<u8>
        ensures { result ≡ number_at self.now.actors name.now }
    {
        self.actors.get(name).copied()
    }

    /// The channel of this name, if there is one.
    pub(crate) fn channel(&self, name: &[u8]) -> Option<u16>
        ensures { result ≡ number_at self.now.channels name.now }
    {
        self.channels.get(name).copied()
    }
}
