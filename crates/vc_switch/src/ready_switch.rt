//! A switch that knows at which of its links there is something to do, so that nobody looks at the others.
ghost use Rattle.std.specs.Prelude.{◌≡◌, ◌≢◌, ◌<◌, ◌≤◌, ◌↔◌, ◌^◌, ℕ, IsOk, IfOk, MatchOption, get_or};
ghost use Rattle.std.specs.Int.{bit_at};
ghost use Rattle.std.specs.List.{AllByRecursion};
ghost use Rattle.vc_tokens.specs.CodeTokens.{token};
ghost use Rattle.vc_switch.specs.Waiting.{Wormhole};
ghost use Rattle.vc_switch.specs.Switch.{new_switch, Comes, Passes, Routes, Sends, SendsFct};
ghost use Rattle.vc_switch.specs.Able.{CanPass, CanRoute, CanPut, CanGrant, IsFree, IsNextRoute, NoneCanRoute};
ghost use Rattle.vc_switch.specs.Opening.{plan_given, IsRandomInput};
ghost use Rattle.vc_switch.specs.Private.Requests.{AsksFor, HasMore, OthersAskTheSame};
ghost use Rattle.vc_switch.specs.Private.Ready.{Looks, Tells, Waits};
ghost use Rattle.vc_switch.specs.State.{plan_of, limit_of};
ghost use Rattle.vc_switch.specs.SwitchView.{seen, IsKept};

use crate::bits::{has_more, lowest, minus, told};
use crate::requests::Requests;
use crate::switch::Switch;
use crate::switch_plan::SwitchPlan;
use std::alloc::Global;
use std::marker::Model;
use vc_packets::Memory;
use vc_tokens::Token;

/// A bit for each link at which there is something to do, by what it is.
#[derive(Clone, Copy, Drop)]
pub(crate) struct Ready {
    /// The inputs from whose buffer a token may pass.
    pub(crate) passes: u32,
    /// The outputs to which a packet is bound.
    pub(crate) puts: u32,
    /// The inputs of whose places eight may be granted.
    pub(crate) grants: u32,
}

impl Ready {
    /// Looks at one input of the switch.
    fn look(&mut self, switch: &Switch, link: u8)
        requires { link < 32 }
        ensures { Looks switch.now link self.old self.new }
    {
        self.passes = told(self.passes, link, switch.may_pass(link));
        self.grants = told(self.grants, link, switch.may_grant(link));
    }

    /// Looks at an input from whose buffer a token passed: whether another may pass, and whether eight places are free now.
    fn look_after_pass(&mut self, switch: &Switch, link: u8)
        requires link { link < 32 }
        requires passes { bit_at self.old.passes link ≡ 1 }
        requires grants { bit_at self.old.grants link ≡ 1 → CanGrant (seen switch.now) link }
        ensures { Looks switch.now link self.old self.new }
    {
        if !switch.may_pass(link) {
            self.passes = told(self.passes, link, false);
        }
        if switch.may_grant(link) {
            self.grants = told(self.grants, link, true);
        }
    }
}

/// A [`Switch`], with masks of the links at which there is something to do. Its calls are those of the switch.
pub struct ReadySwitch {
    switch: Switch,
    ready: Ready,
    // what the packets ask for that are bound to no output
    requests: Requests,
    // a bit for each input whose packet asks for a free output
    routes: u32,
}

impl Drop for ReadySwitch {
    // written, so that the crates above need not prove again how all that it holds is dropped
    fn drop(self) {
        let ReadySwitch {
            switch: _,
            ready: _,
            requests: _,
            routes: _,
        } = self;
    }
}

impl Model for ReadySwitch {
    ghost use Rattle.vc_switch.specs.State.{State};
    ghost use Rattle.vc_switch.specs.Private.Requests.{IsKnown};

    ghost Value = { State };

    ghost view = { λ x. x.switch };

    ghost invariant = { λ x. IsKnown x.switch x.ready x.requests x.routes };
}

impl ReadySwitch {
    /// A switch of this plan with nothing on its links, for packets whose headers and data have at most `body_limit` bytes.
    pub fn new(alloc: Global, plan: SwitchPlan, body_limit: usize) -> Result<ReadySwitch, Memory>
        requires limit { 2 ≤ body_limit }
        requires delete { AllByRecursion (λ link. link < 32) plan.delete.now }
        requires random { AllByRecursion IsRandomInput plan.random.now }
        ensures seen { IfOk result (λ switch. seen switch ≡ new_switch) }
        ensures plan { IfOk result (λ switch. plan_of switch ≡ plan_given plan.entry) }
        ensures limit { IfOk result (λ switch. limit_of switch.inputs ≡ body_limit) }
    {
        Ok(ReadySwitch {
            switch: Switch::new(alloc, plan, body_limit)?,
            ready: Ready {
                passes: 0,
                puts: 0,
                grants: u32::MAX,
            },
            requests: Requests::new(),
            routes: 0,
        })
    }

    /// The switch, for its questions.
    pub fn switch(&self) -> &Switch
        ensures { result.now ≡ self.now }
    {
        &self.switch
    }

    /// A bit for each link from whose buffer a token may pass.
    pub fn passes(&self) -> u32
        ensures { (l : ℕ) →
            l < 32 →
            (bit_at result l ≡ 1) ↔
            CanPass (limit_of self.now.inputs) (plan_of self.now) (seen self.now) l }
    {
        self.ready.passes
    }

    /// The least input whose packet may be bound to an output, and the least such output.
    pub fn next_route(&self) -> Option<(u8, u8)>
        ensures { MatchOption result (NoneCanRoute (plan_of self.now) (seen self.now))
            (λ route.
            (route.0 < 32) ×
            (route.1 < 32) ×
            IsNextRoute (plan_of self.now) (seen self.now) route.0 route.1) }
    {
        let input = lowest(self.routes)?;
        let output = lowest(minus(self.requests.of(input), self.ready.puts))?;
        Some((input, output))
    }

    /// A bit for each output to which a packet is bound, and so for each on which a token may be put.
    pub fn puts(&self) -> u32
        ensures bound { (l : ℕ) → l < 32 → (bit_at result l ≡ 1) ↔ (IsFree (seen self.now) l → ⊥) }
        ensures can { (l : ℕ) →
            l < 32 →
            CanPut (plan_of self.now) (seen self.now) l →
            bit_at result l ≡ 1 }
    {
        self.ready.puts
    }

    /// A bit for each link on which an FCT may be put.
    pub fn grants(&self) -> u32
        ensures { (l : ℕ) → l < 32 → (bit_at result l ≡ 1) ↔ CanGrant (seen self.now) l }
    {
        self.ready.grants
    }

    /// A token comes over a link, with a word for a random header.
    #[inline(always)]
    pub fn take(&mut self, link: u8, came: Token, word: u32) -> Result<(), Memory>
        requires { link < 32 }
        ensures comes { Comes (seen self.old) link word (token came) (seen self.new) }
        ensures kept { IsKept self.old self.new }
        ensures ok { IsOk result }
    {
        let taken = self.switch.take(link, came, word);
        self.ready.passes = told(self.ready.passes, link, self.switch.may_pass(link));
        taken
    }

    /// A token passes from a link's buffer.
    #[inline(always)]
    pub fn pass(&mut self, link: u8) -> Result<(), Memory>
        requires link { link < 32 }
        requires may { CanPass (limit_of self.old.inputs) (plan_of self.old) (seen self.old) link }
        ensures passes { Passes (limit_of self.old.inputs) (plan_of self.old) (seen self.old) link
            (seen self.new) }
        ensures kept { IsKept self.old self.new }
        ensures ok { IsOk result }
    {
        let passed = self.switch.pass(link);
        self.ready.look_after_pass(&self.switch, link);
        // what a packet asks for stays the same until it is bound
        if self.requests.of(link) == 0 && self.switch.waits(link) {
            self.routes = ask(
                &self.switch,
                &mut self.requests,
                link,
                self.ready.puts,
                self.routes,
            );
        }
        passed
    }

    /// An input's packet is bound to an output of its group that is free.
    pub fn route(&mut self, input: u8, output: u8)
        requires input { input < 32 }
        requires output { output < 32 }
        requires may { CanRoute (plan_of self.old) (seen self.old) input output }
        ensures routes { Routes (plan_of self.old) Wormhole (seen self.old) input output
            (seen self.new) }
        ensures kept { IsKept self.old self.new }
    {
        self.switch.route(input, output);
        self.ready.look(&self.switch, input);
        self.ready.puts = told(self.ready.puts, output, true);
        self.requests.set(input, 0);
        self.routes = self.requests.asking(self.ready.puts);
    }

    /// Puts the next token of the packet that is bound to an output; with its mark the packet leaves its input, and the output is
    /// free again.
    #[inline(always)]
    pub fn put(&mut self, output: u8) -> Token
        requires output { output < 32 }
        requires may { CanPut (plan_of self.old) (seen self.old) output }
        ensures sends { Sends (plan_of self.old) Wormhole (seen self.old) output (token result)
            (seen self.new) }
        ensures kept { IsKept self.old self.new }
    {
        let Some(source) = self.switch.source(output) else {
            unreachable!();
        };
        let token = self.switch.put(output);
        match token {
            Token::Byte(_) | Token::Fct => {}
            Token::Eop | Token::Eom => {
                self.ready.look(&self.switch, source);
                self.ready.puts = told(self.ready.puts, output, false);
                self.routes = self.requests.asking(self.ready.puts);
            }
        }
        token
    }

    /// An FCT is put on a link.
    pub fn grant(&mut self, link: u8)
        requires link { link < 32 }
        requires may { CanGrant (seen self.old) link }
        ensures grants { SendsFct (seen self.old) link (seen self.new) }
        ensures kept { IsKept self.old self.new }
    {
        self.switch.grant(link);
        self.ready.look(&self.switch, link);
    }
}

// Finds what an input's packet asks for, and answers the mask `routes` with the input's bit set by it.
fn ask(switch: &Switch, requests: &mut Requests, link: u8, busy: u32, routes: u32) -> u32
    requires link { link < 32 }
    requires waits { Waits ((seen switch.now).input link) }
    ensures few { get_or requests.new link 0 < 2 ^ 32 }
    ensures leave { AsksFor switch.now link (get_or requests.new link 0) }
    ensures others { OthersAskTheSame link requests.old requests.new }
    ensures routes { Tells (HasMore (get_or requests.new link 0) busy) link routes result }
{
    let asked = switch.requests(link);
    requests.set(link, asked);
    told(routes, link, has_more(asked, busy))
}
