//! The ways of a network, with the tokens on them, at the links of its actors.
ghost use Rattle.std.specs.Prelude.{◌≡◌, ◌↔◌, ◌+◌, ◌*◌, ◌<◌, ◌++◌, [], ◌∷◌, ℕ, List, IfOk, IfSome, OnOk, OnErr, Some, length, map, slice_get};
ghost use Rattle.std.specs.Int.{bit_at};
ghost use Rattle.std.specs.List.{AllByRecursion};
ghost use Rattle.std.specs.Option.{option_copied};
ghost use Rattle.vc_plan.specs.Accepted.{IsAccepted};
ghost use Rattle.vc_actor.specs.Acts.{MayAct};
ghost use Rattle.vc_core.specs.Private.Lines.{LeadsTo, TakesOff, PutsOnWay, with_way};
ghost use Rattle.vc_core.specs.Wiring.{out_at, AreWaysAt, Comes, Goes};
ghost use Rattle.vc_actor.specs.declared.act.Act.TheVariants as act;
ghost use Rattle.vc_tokens.specs.Tokens.{Token as SpeltToken};
ghost use Rattle.vc_tokens.specs.CodeTokens.{token as spelt, tokens as all_spelt};

use crate::ends::{End, ends_of};
use crate::fronts::Fronts;
use crate::way::Way;
use crate::ways_by_end::WaysByEnd;
use crate::wiring::{LINKS, Wiring};
use std::alloc::Global;
use std::marker::Model;
use vc_actor::Actor;
use vc_packets::Memory;
use vc_plan::Plan;
use vc_tokens::Token;

/// The ways of a network, with the tokens on them, and by which links of which actors tokens come.
#[derive(Drop)]
pub(crate) struct Lines {
    wiring: Wiring,
    ways: WaysByEnd,
    fronts: Fronts,
}

impl Model for Lines {
    ghost use Rattle.vc_core.specs.Lines.{Lined, AreLined};
    ghost use Rattle.vc_core.specs.Private.Wiring.{AreEnds};

    ghost Value = { Lined };

    ghost view = { λ x. record { ways = x.ways.ways; wiring = x.wiring } };

    ghost invariant = { λ x. AreLined x.wiring x.ways.ways x.fronts × AreEnds x.wiring x.ways.ends };
}

impl Lines {
    /// The ways of an accepted plan, with no token on them.
    pub(crate) fn new(alloc: Global, plan: &Plan) -> Result<Lines, Memory>
        requires { IsAccepted plan.now }
        ensures wired { IfOk result (λ lines. AreWaysAt plan.now lines.wiring) }
        ensures count { IfOk result (λ lines. length lines.ways ≡ 2 * length plan.now.wires) }
        ensures empty { IfOk result (λ lines. AllByRecursion (λ way. way ≡ []) lines.ways) }
    {
        let wiring = Wiring::new(alloc, plan)?;
        let ends = ends_of(alloc, plan)?;
        let actors = plan.nodes.len() + plan.switches.len();
        let ways = WaysByEnd::new(alloc, ends, actors * LINKS)?;
        let fronts = Fronts::new();
        Ok(Lines {
            wiring,
            ways,
            fronts,
        })
    }

    /// The ways of an accepted plan, with these tokens on each in turn.
    pub(crate) fn with_tokens(
        alloc: Global,
        plan: &Plan,
        tokens: &[Vec<Token>],
    ) -> Result<Lines, Memory>
        requires plan { IsAccepted plan.now }
        requires count { length tokens.now ≡ 2 * length plan.now.wires }
        ensures wired { IfOk result (λ lines. AreWaysAt plan.now lines.wiring) }
        ensures ways { IfOk result
            (λ lines. lines.ways ≡ map (λ line. all_spelt line.items) tokens.now) }
    {
        let mut lines = Lines::new(alloc, plan)?;
        for (way, line) in tokens.iter().enumerate() {
            lines.lay(way, line.as_slice())?;
        }
        Ok(lines)
    }

    // These tokens come to the end of a way, one after another.
    fn lay(&mut self, way: usize, tokens: &[Token]) -> Result<(), Memory>
        requires { way < length self.old.ways }
        ensures { (ts : List SpeltToken) →
            slice_get self.old.ways way ≡ Some ts →
            OnOk result (self.new ≡ with_way self.old way (ts ++ all_spelt tokens.now)) }
    {
        for token in tokens {
            self.push(way, *token)?;
        }
        Ok(())
    }

    /// How many ways there are.
    pub(crate) fn len(&self) -> usize
        ensures { result ≡ length self.now.ways }
    {
        self.ways.len()
    }

    /// The tokens on a way, if there is one of this number.
    pub(crate) fn way(&self, way: usize) -> Option<&Way>
        ensures { option_copied result ≡ slice_get self.now.ways way }
    {
        self.ways.get(way)
    }

    /// The way that goes out by a link of an actor, if the link is on a wire.
    pub(crate) fn outgoing(&self, actor: u8, link: u8) -> Option<usize>
        ensures way { result ≡ out_at self.now.wiring actor link }
        ensures real { IfSome result (λ way. way < length self.now.ways) }
    {
        self.wiring.outgoing(actor, link)
    }

    /// A bit for each link of an actor by which a way goes out.
    pub(crate) fn room(&self, actor: u8) -> u32
        ensures { (link : ℕ) →
            link < 32 →
            (bit_at result link ≡ 1) ↔ Goes self.now.wiring self.now.ways actor link }
    {
        self.wiring.room(actor)
    }

    /// A bit for each link of an actor by which a token comes.
    pub(crate) fn fronts(&self, actor: u8) -> u32
        ensures { (link : ℕ) →
            link < 32 →
            (bit_at result link ≡ 1) ↔ Comes self.now.wiring self.now.ways actor link }
    {
        self.fronts.links(actor)
    }

    /// The front token of the way that comes in by a link of an actor is taken off.
    #[inline(always)]
    pub(crate) fn take_front(&mut self, actor: u8, link: u8) -> Token
        requires { Comes self.old.wiring self.old.ways actor link }
        ensures { TakesOff self.old actor link result self.new }
    {
        let end = End {
            actor: u16::from(actor),
            link,
        };
        let (token, is_last) = self.ways.take_front(end);
        if is_last {
            self.fronts.clear(actor, link);
        }
        token
    }

    /// A token more comes to the end of a way. The answer is the actor to which the way leads.
    #[inline(always)]
    pub(crate) fn push(&mut self, way: usize, token: Token) -> Result<u16, Memory>
        requires { way < length self.old.ways }
        ensures ok { (ts : List SpeltToken) →
            slice_get self.old.ways way ≡ Some ts →
            OnOk result (self.new ≡ with_way self.old way (ts ++ spelt token ∷ [])) }
        ensures to { IfOk result (LeadsTo self.old.wiring way) }
        ensures few { IfOk result (λ to. to < 64) }
        ensures err { OnErr result (self.new ≡ self.old) }
    {
        let end = self.ways.end(way);
        self.ways.push(end, token)?;
        self.fronts.set(end.actor, end.link);
        Ok(end.actor)
    }

    /// A token more comes to the end of the way that goes out by an actor's link. The answer is the actor to which the way leads.
    #[inline(always)]
    pub(crate) fn push_out(&mut self, actor: u8, link: u8, token: Token) -> Result<u16, Memory>
        requires { Goes self.old.wiring self.old.ways actor link }
        ensures ok { (way : ℕ) (ts : List SpeltToken) →
            out_at self.old.wiring actor link ≡ Some way →
            slice_get self.old.ways way ≡ Some ts →
            OnOk result (self.new ≡ with_way self.old way (ts ++ spelt token ∷ [])) }
        ensures to { (way : ℕ) →
            out_at self.old.wiring actor link ≡ Some way →
            IfOk result (LeadsTo self.old.wiring way) }
        ensures few { IfOk result (λ to. to < 64) }
        ensures err { OnErr result (self.new ≡ self.old) }
    {
        let end = self.wiring.far(actor, link);
        self.ways.push(end, token)?;
        self.fronts.set(end.actor, end.link);
        Ok(end.actor)
    }

    /// The next token that an actor puts on a link comes to the end of the way that goes out by it. The answer is the actor to which the
    /// way leads.
    #[inline(always)]
    pub(crate) fn put(&mut self, actor: u8, link: u8, from: &mut Actor) -> Result<u16, Memory>
        requires way { Goes self.old.wiring self.old.ways actor link }
        requires may { MayAct from.old (act.Put link) }
        ensures ok { (way : ℕ) →
            out_at self.old.wiring actor link ≡ Some way →
            OnOk result (PutsOnWay self.old way from.old link from.new self.new) }
        ensures to { (way : ℕ) →
            out_at self.old.wiring actor link ≡ Some way →
            IfOk result (LeadsTo self.old.wiring way) }
        ensures few { IfOk result (λ to. to < 64) }
        ensures err { OnErr result ((from.new ≡ from.old) × (self.new ≡ self.old)) }
    {
        let end = self.wiring.far(actor, link);
        self.ways.put(end, from, link)?;
        self.fronts.set(end.actor, end.link);
        Ok(end.actor)
    }
}
