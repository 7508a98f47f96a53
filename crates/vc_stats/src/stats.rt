//! Counts of the events of a run.
ghost use Rattle.std.specs.Prelude.{◌≡◌, [], ◌∷◌, ◌++◌, List, length, OnOk};
ghost use Rattle.vc_core.specs.declared.event.Event.{Event};
ghost use Rattle.vc_stats.specs.Counts.{AreCounts, Counts, actor_count_at, count_at, fct_in, kind_count, kind_in, offer_in, output_in, put_in, want_in};

use crate::kind::Kind;
use crate::table::Table;
use crate::tally::Tally;
use std::alloc::Global;
use vc_core::{Act, Event};
use vc_occam::Move;
use vc_packets::Memory;

/// How many events of a run are of each kind, by actor, by link and by channel.
#[derive(Drop)]
pub(crate) struct Stats {
    // all events
    events: u64,
    // events by kind
    all: Tally,
    // by actor and kind
    kinds: Table,
    // tokens put by actor and link
    puts: Table,
    // flow control tokens put by actor and link
    fcts: Table,
    // packets bound by actor and output link
    routes: Table,
    // outputs begun by channel
    offers: Tally,
    // inputs begun by channel
    wants: Tally,
}

// The number of an act's kind.
fn kind_of(act: &Act) -> Option<u16>
    ensures { result ≡ kind_in act.now }
{
    Some(Kind::of(act).number())
}

// The link by which a token of a packet is put.
fn put_of(act: &Act) -> Option<u16>
    ensures { result ≡ put_in act.now }
{
    match act {
        Act::Put { link } => Some(u16::from(*link)),
        _ => None,
    }
}

// The link by which a flow control token is put.
fn fct_of(act: &Act) -> Option<u16>
    ensures { result ≡ fct_in act.now }
{
    match act {
        Act::Fct { link } => Some(u16::from(*link)),
        _ => None,
    }
}

// The output to which a packet is bound.
fn output_of(act: &Act) -> Option<u16>
    ensures { result ≡ output_in act.now }
{
    match act {
        Act::Route { output, .. } => Some(u16::from(*output)),
        _ => None,
    }
}

// The channel on which an output begins.
fn offer_of(act: &Act) -> Option<u16>
    ensures { result ≡ offer_in act.now }
{
    match act {
        Act::Proc(Move::Offer { chan, .. } | Move::Inner { chan, .. }) => Some(*chan),
        _ => None,
    }
}

// The channel on which an input begins.
fn want_of(act: &Act) -> Option<u16>
    ensures { result ≡ want_in act.now }
{
    match act {
        Act::Proc(Move::Want { chan, .. } | Move::Choose { chan, .. } | Move::Inner { chan, .. }) =>
            { Some(*chan) }
        _ => None,
    }
}

impl Stats {
    /// No event yet.
    pub(crate) fn new(alloc: Global) -> Stats
        ensures { Counts result [] }
    {
        Stats {
            events: 0,
            all: Tally::new(alloc),
            kinds: Table::new(alloc),
            puts: Table::new(alloc),
            fcts: Table::new(alloc),
            routes: Table::new(alloc),
            offers: Tally::new(alloc),
            wants: Tally::new(alloc),
        }
    }

    /// How many events there are.
    pub(crate) fn events(&self) -> u64
        ensures { (es : List Event) → AreCounts self.now es → result ≡ length es }
    {
        self.events
    }

    /// How many events of a kind there are, of all actors or of one.
    pub(crate) fn of_kind(&self, actor: Option<usize>, kind: Kind) -> u64
        ensures { (es : List Event) → AreCounts self.now es → result ≡ kind_count actor kind es }
    {
        match actor {
            Some(actor) => self.kinds.get(actor, usize::from(kind.number())),
            None => self.all.get(usize::from(kind.number())),
        }
    }

    /// How many tokens of packets an actor has put by a link.
    pub(crate) fn tokens(&self, actor: usize, link: u8) -> u64
        ensures { (es : List Event) → AreCounts self.now es →
            result ≡ actor_count_at put_in actor link es }
    {
        self.puts.get(actor, usize::from(link))
    }

    /// How many flow control tokens an actor has put by a link.
    pub(crate) fn fcts(&self, actor: usize, link: u8) -> u64
        ensures { (es : List Event) → AreCounts self.now es →
            result ≡ actor_count_at fct_in actor link es }
    {
        self.fcts.get(actor, usize::from(link))
    }

    /// How many packets were bound to an output of an actor.
    pub(crate) fn bound(&self, actor: usize, link: u8) -> u64
        ensures { (es : List Event) → AreCounts self.now es →
            result ≡ actor_count_at output_in actor link es }
    {
        self.routes.get(actor, usize::from(link))
    }

    /// How many outputs began on a channel.
    pub(crate) fn outputs(&self, chan: usize) -> u64
        ensures { (es : List Event) → AreCounts self.now es →
            result ≡ count_at offer_in chan es }
    {
        self.offers.get(chan)
    }

    /// How many inputs began on a channel.
    pub(crate) fn inputs(&self, chan: usize) -> u64
        ensures { (es : List Event) → AreCounts self.now es →
            result ≡ count_at want_in chan es }
    {
        self.wants.get(chan)
    }

    /// One event more. It fails only when out of memory.
    pub(crate) fn count(&mut self, event: &Event) -> Result<(), Memory>
        ensures { OnOk result ((es : List Event) → Counts self.old es →
            Counts self.new (es ++ event.now ∷ [])) }
    {
        self.events = self.events.saturating_add(1);
        self.all.count(kind_of(&event.act))?;
        self.kinds.count(event.actor, kind_of(&event.act))?;
        self.puts.count(event.actor, put_of(&event.act))?;
        self.fcts.count(event.actor, fct_of(&event.act))?;
        self.routes.count(event.actor, output_of(&event.act))?;
        self.offers.count(offer_of(&event.act))?;
        self.wants.count(want_of(&event.act))
    }
    /// Adds the counts of other events. It fails if there are more than `u64::MAX` then, and when out of memory.
    pub(crate) fn add(&mut self, other: &Stats) -> Result<(), Memory>
        ensures { OnOk result ((es fs : List Event) → AreCounts self.old es →
            AreCounts other.now fs → AreCounts self.new (es ++ fs)) }
    {
        let Some(events) = self.events.checked_add(other.events) else {
            return Err(Memory);
        };
        self.events = events;
        self.all.add_all(&other.all)?;
        self.kinds.add_all(&other.kinds)?;
        self.puts.add_all(&other.puts)?;
        self.fcts.add_all(&other.fcts)?;
        self.routes.add_all(&other.routes)?;
        self.offers.add_all(&other.offers)?;
        self.wants.add_all(&other.wants)?;
        Ok(())
    }
}
