//! How many packets ports put whole on wires.
ghost use Rattle.std.specs.Prelude.{◌≡◌, ◌==◌, ◌&&◌, ◌<◌, ◌∷◌, ◌++◌, [], ℕ, cond, List, length, OnOk};
ghost use Rattle.vc_core.specs.PossibleEvents.{NetworkState};
ghost use Rattle.vc_core.specs.State.{MakesEvent, State, shown, state_of};
ghost use Rattle.vc_core.specs.declared.event.Event.{Event as Happening};
ghost use Rattle.vc_plan.specs.declared.plan.Plan.{Plan};
ghost use Rattle.vc_stats.specs.Counts.{most_events, put_in};
ghost use Rattle.vc_stats.specs.Packets.{ArePacketsOf, count_at};
ghost use Rattle.vc_stats.specs.Private.Packets.{acked_link, ended, with_token};
ghost use Rattle.vc_tokens.specs.CodeTokens.{token as spelt};

use crate::table::Table;
use std::alloc::Global;
use vc_core::{Act, Event, Network};
use vc_packets::Memory;
use vc_tokens::Token;

/// An acknowledge has fewer bytes than this, and a piece that ends by EOP has more.
const DATA: u64 = 32;

/// How many packets each link of each actor put whole, and how many of them are acknowledges.
#[derive(Drop)]
pub(crate) struct Packets {
    // packets put whole by actor and link
    whole: Table,
    // how many of them are acknowledges
    acks: Table,
    // the bytes put since the last end mark by actor and link
    bytes: Table,
}

// The link by which an act puts a token of a packet.
fn link_by(act: &Act) -> Option<u8>
    ensures { result ≡ put_in act.now }
{
    match act {
        Act::Put { link } => Some(*link),
        _ => None,
    }
}

// A link, if the packet that it put is an acknowledge.
fn link_if(is_ack: bool, link: u16) -> Option<u16>
    ensures { result ≡ acked_link is_ack link }
{
    if is_ack { Some(link) } else { None }
}

impl Packets {
    /// Of a run that is about to begin.
    pub(crate) fn new(alloc: Global) -> Packets
        ensures { (p : Plan) → ArePacketsOf result p [] [] }
    {
        Packets {
            whole: Table::new(alloc),
            acks: Table::new(alloc),
            bytes: Table::new(alloc),
        }
    }

    /// How many packets an actor has put whole by a link.
    pub(crate) fn whole(&self, actor: u16, link: u8) -> u64
        ensures { result ≡ (count_at self.now actor link).packets }
    {
        self.whole.get(usize::from(actor), usize::from(link))
    }

    /// How many of them are acknowledges.
    pub(crate) fn acks(&self, actor: u16, link: u8) -> u64
        ensures { result ≡ (count_at self.now actor link).acks }
    {
        self.acks.get(usize::from(actor), usize::from(link))
    }

    // An end mark was put, by which a packet is whole.
    fn end(&mut self, actor: u8, link: u8, is_ack: bool) -> Result<(), Memory>
        ensures { OnOk result ((k l : ℕ) → count_at self.new k l ≡
            cond (actor == k && link == l) (ended is_ack (count_at self.old k l))
            (count_at self.old k l)) }
    {
        let link = u16::from(link);
        self.acks.count(actor, link_if(is_ack, link))?;
        self.whole.count(actor, Some(link))?;
        self.bytes.set(actor, link, 0)
    }

    // A token more was put.
    fn add(&mut self, actor: u8, link: u8, token: Token) -> Result<(), Memory>
        ensures { OnOk result ((k l : ℕ) → count_at self.new k l ≡
            cond (actor == k && link == l) (with_token (spelt token) (count_at self.old k l))
            (count_at self.old k l)) }
    {
        let bytes = self.bytes.get(usize::from(actor), usize::from(link));
        match token {
            Token::Byte(_) => self.bytes.count(actor, Some(u16::from(link))),
            Token::Eop => self.end(actor, link, bytes < DATA),
            Token::Eom => self.end(actor, link, false),
            Token::Fct => Ok(()),
        }
    }

    /// Counts what an event puts, if it puts a token; the network is the one after it. It costs time that does not depend on the network.
    /// It fails only when out of memory, and nothing is known of the counts then.
    pub(crate) fn follow(&mut self, network: &Network, event: &Event) -> Result<(), Memory>
        ensures { OnOk result ((p : Plan) (es : List Happening) (xs : List NetworkState)
            (s : State) →
            ArePacketsOf self.old p es xs → length es ≡ length xs → length es < most_events →
            MakesEvent p s event.now (state_of network.now) →
            ArePacketsOf self.new p (es ++ event.now ∷ [])
            (xs ++ shown (state_of network.now) ∷ [])) }
    {
        let Some(link) = link_by(&event.act) else {
            return Ok(());
        };
        match network.last_put(event.actor, link) {
            Some(token) => self.add(event.actor, link, token),
            None => Ok(()),
        }
    }
}
