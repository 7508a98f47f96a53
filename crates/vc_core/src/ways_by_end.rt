//! The ways of a network, with the tokens on them.
ghost use Rattle.std.specs.Prelude.{◌≡◌, ◌<◌, [], IfOk, OnErr, OnOk, Some, length, slice_get};
ghost use Rattle.std.specs.List.{AllByRecursion};
ghost use Rattle.std.specs.Option.{option_copied};
ghost use Rattle.vc_actor.specs.Acts.{MayAct};
ghost use Rattle.vc_actor.specs.declared.act.Act.TheVariants as act;
ghost use Rattle.vc_core.specs.Private.ByEnd.{AreApart, Leads, PutsLast, PushesLast, HasToken, TakesFront};

use crate::ends::{End, place_at};
use crate::way::Way;
use std::alloc::Global;
use std::marker::Model;
use vc_actor::Actor;
use vc_packets::Memory;
use vc_tokens::Token;

/// The ways of a network, with the tokens on them. They are kept by the links to which they lead, so that a token is taken and put without
/// a look at its way's number.
#[derive(Drop)]
pub(crate) struct WaysByEnd {
    // the port to which each way leads
    ends: Vec<End>,
    // by the place of its end
    lines: Vec<Way>,
}

impl Model for WaysByEnd {
    ghost use Rattle.std.specs.Prelude.{length};
    ghost use Rattle.vc_core.specs.Private.ByEnd.{ByEnd, AreApart, ways_at};

    ghost Value = { ByEnd };

    ghost view = { λ x. record { ends = x.ends.items; ways = ways_at x.ends.items x.lines.items } };

    ghost invariant = { λ x. AreApart x.ends.items (length x.lines.items) };
}

impl WaysByEnd {
    /// The ways that lead to these ports, with no token on them, where there are so many places of links.
    pub(crate) fn new(alloc: Global, ends: Vec<End>, places: usize) -> Result<WaysByEnd, Memory>
        requires { AreApart ends.items places }
        ensures ends { IfOk result (λ ways. ways.ends ≡ ends.items) }
        ensures count { IfOk result (λ ways. length ways.ways ≡ length ends.items) }
        ensures empty { IfOk result (λ ways. AllByRecursion (λ way. way ≡ []) ways.ways) }
    {
        let lines = empty_ways(alloc, places)?;
        Ok(WaysByEnd { ends, lines })
    }

    /// How many ways there are.
    pub(crate) fn len(&self) -> usize
        ensures { result ≡ length self.now.ways }
    {
        self.ends.len()
    }

    /// A way, if there is one of this number.
    pub(crate) fn get(&self, way: usize) -> Option<&Way>
        ensures { option_copied result ≡ slice_get self.now.ways way }
    {
        match self.ends.get(way) {
            Some(end) => Some(&self.lines[place_at(end.actor, end.link)]),
            None => None,
        }
    }

    /// The port to which a way leads.
    pub(crate) fn end(&self, way: usize) -> End
        requires { way < length self.now.ways }
        ensures { slice_get self.now.ends way ≡ Some result }
    {
        self.ends[way]
    }

    /// Takes the front token off the way that leads to a port. The answer is the token, and whether none is after it.
    #[inline(always)]
    pub(crate) fn take_front(&mut self, end: End) -> (Token, bool)
        requires { HasToken self.old end }
        ensures { TakesFront self.old end result.0 result.1 self.new }
    {
        let line = &mut self.lines[place_at(end.actor, end.link)];
        let token = line.take_front();
        (token, line.is_empty())
    }

    /// A token more comes to the end of the way that leads to a port.
    #[inline(always)]
    pub(crate) fn push(&mut self, end: End, token: Token) -> Result<(), Memory>
        requires { Leads self.old end }
        ensures ok { OnOk result (PushesLast self.old end token self.new) }
        ensures err { OnErr result (self.new ≡ self.old) }
    {
        self.lines[place_at(end.actor, end.link)].push(token)
    }

    /// The next token that an actor puts on a link comes to the end of the way that leads to a port.
    #[inline(always)]
    pub(crate) fn put(&mut self, end: End, from: &mut Actor, link: u8) -> Result<(), Memory>
        requires leads { Leads self.old end }
        requires may { MayAct from.old (act.Put link) }
        ensures ok { OnOk result (PutsLast self.old end from.old link from.new self.new) }
        ensures err { OnErr result ((from.new ≡ from.old) × (self.new ≡ self.old)) }
    {
        self.lines[place_at(end.actor, end.link)].put(from, link)
    }
}

// So many ways, with no token on them.
fn empty_ways(alloc: Global, count: usize) -> Result<Vec<Way>, Memory>
    ensures count { IfOk result (λ ways. length ways.items ≡ count) }
    ensures empty { IfOk result (λ ways. AllByRecursion (λ way. way ≡ []) ways.items) }
{
    let mut ways = Vec::new(alloc);
    for _ in 0..count {
        ways.push(Way::new(alloc))?;
    }
    Ok(ways)
}
