//! A switch: the calls by which it is run, each a step of the switch.
//!
//! A link is named by its number at the switch, 0 to 31. A question about another is answered false, or with nothing. Only
//! [`Switch::new`] takes memory.
ghost use Rattle.std.specs.Prelude.{◌≡◌, ◌<◌, ◌≤◌, ◌↔◌, ◌++◌, ℕ, List, length, drop, None, Some, IsTrue, IsOk, IfOk, MatchOption};
ghost use Rattle.std.specs.Int.{bit_at};
ghost use Rattle.std.specs.List.{AllByRecursion};
ghost use Rattle.vc_packets.specs.Counters.{one_more};
ghost use Rattle.vc_tokens.specs.CodeTokens.{token, tokens};
ghost use Rattle.vc_tokens.specs.Tokens.{Byte, Fct, EndMark};
ghost use Rattle.vc_credit.specs.Ends.{IsFront};
ghost use Rattle.vc_credit.specs.Laws.{NeedsPlace};
ghost use Rattle.vc_switch.specs.Waiting.{Wormhole};
ghost use Rattle.vc_switch.specs.Forward.{IsDrawn, least_of};
ghost use Rattle.vc_switch.specs.Switch.{new_switch, BodyLeaves, Comes, Passes, Routes, Sends, SendsFct};
ghost use Rattle.vc_switch.specs.Able.{CanPass, CanRoute, CanPut, CanGrant, CanLeave, IsFirst, IsFree};
ghost use Rattle.vc_switch.specs.Opening.{plan_given, IsRandomInput};
ghost use Rattle.vc_switch.specs.State.{plan_of, limit_of, IsSwitch};
ghost use Rattle.vc_switch.specs.SwitchView.{seen, IsKept};
ghost use Rattle.vc_switch.specs.Private.Ready.{Waits};
ghost use Rattle.vc_switch.specs.Private.Requests.{AsksFor};
ghost use Rattle.vc_switch.specs.Private.SwitchView.{IsBoundTo, IsNext};

use crate::front::find_front;
use crate::link_in::{Bound, LinkIn};
use crate::link_out::LinkOut;
use crate::opening::{self, LINKS};
use crate::random_range::{RandomRange, draw};
use crate::switch_plan::SwitchPlan;
use std::alloc::Global;
use std::marker::Model;
use vc_labels::Table;
use vc_packets::{Mark, Memory};
use vc_tokens::Token;

/// A switch: its table, what its links do with headers, and the two ends of its 32 links.
#[derive(Drop)]
pub struct Switch {
    table: Table,
    ranges: Vec<Option<RandomRange>>,
    deletes: Vec<bool>,
    inputs: Vec<LinkIn>,
    outputs: Vec<LinkOut>,
    lost: u64,
}

impl Model for Switch {
    ghost use Rattle.vc_switch.specs.State.{State, IsSwitch};

    ghost Value = { State };

    ghost view = { λ x. record {
      table = x.table;
      ranges = x.ranges.items;
      deletes = x.deletes.items;
      inputs = x.inputs.items;
      outputs = x.outputs.items;
      lost = x.lost;
    } };

    ghost invariant = { λ x. IsSwitch (record {
      table = x.table;
      ranges = x.ranges.items;
      deletes = x.deletes.items;
      inputs = x.inputs.items;
      outputs = x.outputs.items;
      lost = x.lost;
    }) };
}

impl Switch {
    /// A switch of this plan with nothing on its links, for packets whose headers and data have at most `body_limit` bytes.
    pub fn new(alloc: Global, plan: SwitchPlan, body_limit: usize) -> Result<Switch, Memory>
        requires limit { 2 ≤ body_limit }
        requires delete { AllByRecursion (λ link. link < 32) plan.delete.now }
        requires random { AllByRecursion IsRandomInput plan.random.now }
        ensures seen { IfOk result (λ switch. seen switch ≡ new_switch) }
        ensures plan { IfOk result (λ switch. plan_of switch ≡ plan_given plan.entry) }
        ensures limit { IfOk result (λ switch. limit_of switch.inputs ≡ body_limit) }
    {
        // a table's rows are lawful
        let _rows = plan.table.rows();
        let (ranges, deletes) = opening::headers(alloc, plan.random, plan.delete)?;
        let (inputs, outputs) = opening::links(alloc, body_limit)?;
        Ok(Switch {
            table: plan.table,
            ranges,
            deletes,
            inputs,
            outputs,
            lost: 0,
        })
    }

    /// Whether a token may come over a link: always, where the switch has the link.
    pub fn may_take(&self, link: u8) -> bool
        ensures { IsTrue result ↔ (link < 32) }
    {
        link < LINKS
    }

    /// A token comes over a link, with a word for a random header: an FCT is credit for the output of the same link, all else goes
    /// to the input's buffer. It is dropped and counted where it is not due. It takes no memory, so the answer is `Ok`.
    pub fn take(&mut self, link: u8, came: Token, word: u32) -> Result<(), Memory>
        requires { link < 32 }
        ensures comes { Comes (seen self.old) link word (token came) (seen self.new) }
        ensures kept { IsKept self.old self.new }
        ensures ok { IsOk result }
    {
        match came {
            Token::Fct => self.take_credit(link, word),
            Token::Byte(_) | Token::Eop | Token::Eom => self.take_data(link, came, word),
        }
        Ok(())
    }

    // An FCT comes.
    fn take_credit(&mut self, link: u8, word: u32)
        requires { link < 32 }
        ensures comes { Comes (seen self.old) link word Fct (seen self.new) }
        ensures kept { IsKept self.old self.new }
    {
        let at = usize::from(link);
        self.inputs[at].draw(word);
        if !self.outputs[at].accept() {
            self.drop_one();
        }
    }

    // A token comes that needs a place.
    fn take_data(&mut self, link: u8, came: Token, word: u32)
        requires link { link < 32 }
        requires place { NeedsPlace (token came) }
        ensures comes { Comes (seen self.old) link word (token came) (seen self.new) }
        ensures kept { IsKept self.old self.new }
    {
        if !self.inputs[usize::from(link)].accept(came, word) {
            self.drop_one();
        }
    }

    /// Whether a token may pass from a link's buffer: one waits, and no packet is whole in the input.
    pub fn may_pass(&self, link: u8) -> bool
        ensures { IsTrue result ↔
            CanPass (limit_of self.now.inputs) (plan_of self.now) (seen self.now) link }
    {
        link < LINKS && self.inputs[usize::from(link)].may_pass()
    }

    /// A token passes from a link's buffer: a byte joins the packet that is arriving, or is dropped and counted past the limit; with
    /// its mark the packet is whole, or is dropped and counted where it has no group. Before a packet's first token goes the random
    /// header, if the input has a range. It takes no memory, so the answer is `Ok`.
    #[inline(always)]
    pub fn pass(&mut self, link: u8) -> Result<(), Memory>
        requires link { link < 32 }
        requires may { CanPass (limit_of self.old.inputs) (plan_of self.old) (seen self.old) link }
        ensures passes { Passes (limit_of self.old.inputs) (plan_of self.old) (seen self.old) link
            (seen self.new) }
        ensures kept { IsKept self.old self.new }
        ensures ok { IsOk result }
    {
        match self.inputs[usize::from(link)].receiver.front() {
            Some(Token::Byte(byte)) => self.pass_byte(link, byte),
            _ => self.pass_token(link),
        }
        Ok(())
    }

    // The token at the front of a link's buffer passes, of whatever kind. It stands apart, so that a byte is found by one test.
    #[inline(never)]
    fn pass_token(&mut self, link: u8)
        requires link { link < 32 }
        requires may { CanPass (limit_of self.old.inputs) (plan_of self.old) (seen self.old) link }
        ensures passes { Passes (limit_of self.old.inputs) (plan_of self.old) (seen self.old) link
            (seen self.new) }
        ensures kept { IsKept self.old self.new }
    {
        match self.inputs[usize::from(link)].receiver.front() {
            Some(Token::Byte(byte)) => self.pass_byte(link, byte),
            Some(Token::Eop) => self.pass_mark(link, Mark::Eop),
            Some(Token::Eom) => self.pass_mark(link, Mark::Eom),
            Some(Token::Fct) | None => unreachable!(),
        }
    }

    // The byte at the front of a link's buffer passes.
    fn pass_byte(&mut self, link: u8, byte: u8)
        requires link { link < 32 }
        requires open { ((seen self.old).input link).mark ≡ None }
        requires front { IsFront ((seen self.old).input link).receiver (Byte byte) }
        ensures passes { Passes (limit_of self.old.inputs) (plan_of self.old) (seen self.old) link
            (seen self.new) }
        ensures kept { IsKept self.old self.new }
    {
        let at = usize::from(link);
        if !self.inputs[at].pass_byte(self.ranges[at], byte) {
            self.drop_one();
        }
    }

    // The mark at the front of a link's buffer passes.
    fn pass_mark(&mut self, link: u8, mark: Mark)
        requires link { link < 32 }
        requires open { ((seen self.old).input link).mark ≡ None }
        requires front { IsFront ((seen self.old).input link).receiver (EndMark mark) }
        ensures passes { Passes (limit_of self.old.inputs) (plan_of self.old) (seen self.old) link
            (seen self.new) }
        ensures kept { IsKept self.old self.new }
    {
        let at = usize::from(link);
        if !self.inputs[at].pass_mark(&self.table, self.ranges[at], mark) {
            self.drop_one();
        }
    }

    /// Whether an FCT may be put on a link: eight places of its buffer are free and not promised.
    pub fn may_grant(&self, link: u8) -> bool
        ensures { IsTrue result ↔ ((link < 32) × CanGrant (seen self.now) link) }
    {
        link < LINKS && self.inputs[usize::from(link)].may_grant()
    }

    /// An FCT is put on a link.
    pub fn grant(&mut self, link: u8)
        requires link { link < 32 }
        requires may { CanGrant (seen self.old) link }
        ensures grants { SendsFct (seen self.old) link (seen self.new) }
        ensures kept { IsKept self.old self.new }
    {
        self.inputs[usize::from(link)].grant();
    }

    /// The group of links by which an input's packet may leave, its first and its last: it is bound to none yet, and its front
    /// header is there and has this group.
    pub fn choices(&self, input: u8) -> Option<(u8, u8)>
        ensures { MatchOption result
            ((output : ℕ) → CanLeave (plan_of self.now) (seen self.now) input output → ⊥)
            (λ group.
            (group.0 ≤ group.1) ×
            (group.1 < 32) ×
            ((output : ℕ) →
            CanLeave (plan_of self.now) (seen self.now) input output ↔
            ((group.0 ≤ output) × (output ≤ group.1)))) }
    {
        let waiting = self.inputs.get(usize::from(input))?;
        if !waiting.is_idle() {
            return None;
        }
        match find_front(&self.table, waiting.got.bytes()) {
            Some(front) => Some((front.first, front.last)),
            None => None,
        }
    }

    /// A bit for each output by which an input's packet may leave, which is bound to none yet: those of its front header's group.
    pub(crate) fn requests(&self, input: u8) -> u32
        requires input { input < 32 }
        requires unbound { ((seen self.now).input input).bound ≡ None }
        ensures { AsksFor self.now input result }
    {
        match find_front(&self.table, self.inputs[usize::from(input)].got.bytes()) {
            Some(front) => front.links(),
            None => 0,
        }
    }

    /// Whether a header of a packet is there that is bound to no output.
    pub(crate) fn waits(&self, input: u8) -> bool
        requires { input < 32 }
        ensures { IsTrue result ↔ Waits ((seen self.now).input input) }
    {
        self.inputs[usize::from(input)].waits()
    }

    /// The input whose packet is bound to an output.
    pub(crate) fn source(&self, output: u8) -> Option<u8>
        ensures { MatchOption result (IsFree (seen self.now) output)
            (λ input. (input < 32) × (((seen self.now).input input).bound ≡ Some output)) }
    {
        if output < LINKS {
            self.outputs[usize::from(output)].source
        } else {
            None
        }
    }

    /// Whether the switch has an output, and no input is bound to it.
    pub fn free(&self, link: u8) -> bool
        ensures { IsTrue result ↔ ((link < 32) × IsFree (seen self.now) link) }
    {
        match self.outputs.get(usize::from(link)) {
            Some(output) => output.is_free(),
            None => false,
        }
    }

    /// Whether an input's packet may be bound to an output: the output is in the packet's group, and free.
    pub fn may_route(&self, input: u8, output: u8) -> bool
        ensures { IsTrue result ↔ CanRoute (plan_of self.now) (seen self.now) input output }
    {
        match self.choices(input) {
            Some((first, last)) => is_within(first, last, output) && self.free(output),
            None => false,
        }
    }

    /// An input's packet is bound to an output of its group that is free.
    pub fn route(&mut self, input: u8, output: u8)
        requires input { input < 32 }
        requires output { output < 32 }
        requires may { CanRoute (plan_of self.old) (seen self.old) input output }
        ensures routes { Routes (plan_of self.old) Wormhole (seen self.old) input output
            (seen self.new) }
        ensures kept { IsKept self.old self.new }
    {
        let at = usize::from(input);
        let out = usize::from(output);
        match find_front(&self.table, self.inputs[at].got.bytes()) {
            Some(front) => {
                let from = front.leaves_from(self.deletes[out]);
                self.inputs[at].bind(output, from);
                self.outputs[out].bind(input);
            }
            None => unreachable!(),
        }
    }

    // The input whose packet is bound to an output, and how it leaves by it.
    fn bound_to(&self, output: u8) -> Option<(u8, Bound)>
        ensures { MatchOption result (IsFree (seen self.now) output)
            (λ r. IsBoundTo self.now output r.0 r.1) }
    {
        match self.source(output) {
            None => None,
            Some(source) => match self.inputs[usize::from(source)].bound {
                None => None,
                Some(bound) => Some((source, bound)),
            },
        }
    }

    /// Whether a token may be put on an output: there is credit, and a token of the packet that is bound to it.
    pub fn may_put(&self, output: u8) -> bool
        ensures { IsTrue result ↔ CanPut (plan_of self.now) (seen self.now) output }
    {
        match self.bound_to(output) {
            None => false,
            Some((source, bound)) => {
                self.outputs[usize::from(output)].may_send()
                    && self.inputs[usize::from(source)].has_next(bound)
            }
        }
    }

    /// Puts the next token of the packet that is bound to an output; with its mark the packet leaves its input, and the output is
    /// free again.
    pub fn put(&mut self, output: u8) -> Token
        requires output { output < 32 }
        requires may { CanPut (plan_of self.old) (seen self.old) output }
        ensures sends { Sends (plan_of self.old) Wormhole (seen self.old) output (token result)
            (seen self.new) }
        ensures kept { IsKept self.old self.new }
    {
        match self.bound_to(output) {
            None => unreachable!(),
            Some((source, bound)) => match self.inputs[usize::from(source)].next_byte(bound) {
                Some(byte) => self.put_byte(output, source, bound, byte),
                None => self.put_mark(output, source, bound),
            },
        }
    }

    // The next byte goes out of the packet that is bound to an output.
    fn put_byte(&mut self, output: u8, source: u8, bound: Bound, byte: u8) -> Token
        requires output { output < 32 }
        requires bound { IsBoundTo self.old output source bound }
        requires next { IsNext self.old source bound (Some byte) }
        requires may { CanPut (plan_of self.old) (seen self.old) output }
        ensures sends { Sends (plan_of self.old) Wormhole (seen self.old) output (token result)
            (seen self.new) }
        ensures kept { IsKept self.old self.new }
    {
        self.inputs[usize::from(source)].advance(bound);
        self.outputs[usize::from(output)].spend();
        Token::Byte(byte)
    }

    // The mark goes out of the packet that is bound to an output, which is free again.
    fn put_mark(&mut self, output: u8, source: u8, bound: Bound) -> Token
        requires output { output < 32 }
        requires bound { IsBoundTo self.old output source bound }
        requires next { IsNext self.old source bound None }
        requires may { CanPut (plan_of self.old) (seen self.old) output }
        ensures sends { Sends (plan_of self.old) Wormhole (seen self.old) output (token result)
            (seen self.new) }
        ensures kept { IsKept self.old self.new }
    {
        let at = usize::from(source);
        match self.inputs[at].mark {
            Some(mark) => {
                self.inputs[at].release();
                self.outputs[usize::from(output)].release();
                Token::from(mark)
            }
            None => unreachable!(),
        }
    }

    /// How many more tokens a link may put: at most 16, and none where the switch has no such link.
    pub fn credit_left(&self, link: u8) -> u8
        ensures { result ≡ ((seen self.now).output link).credit }
    {
        let Some(output) = self.outputs.get(usize::from(link)) else {
            return 0;
        };
        output.credit_left()
    }

    /// The tokens that wait in a link's buffer, in two parts: those of the first came before those of the second. No link beyond
    /// the 32 has any.
    pub fn tokens(&self, link: u8) -> (&[Token], &[Token])
        ensures { tokens (result.0.now ++ result.1.now) ≡
            ((seen self.now).input link).receiver.buffer }
    {
        match self.inputs.get(usize::from(link)) {
            Some(input) => input.receiver.tokens(),
            None => (&[], &[]),
        }
    }

    /// The bytes that have passed of the packet at an input, after the random header.
    pub fn passed(&self, link: u8) -> &[u8]
        ensures { result.now ≡ ((seen self.now).input link).got }
    {
        match self.inputs.get(usize::from(link)) {
            Some(input) => input.got.bytes(),
            None => &[],
        }
    }

    /// The mark of the packet at an input, once it has come whole.
    pub fn mark(&self, link: u8) -> Option<Mark>
        ensures { result ≡ ((seen self.now).input link).mark }
    {
        match self.inputs.get(usize::from(link)) {
            Some(input) => input.mark,
            None => None,
        }
    }

    /// The least header that an input may put in front of a packet, if it has a range.
    pub fn least_header(&self, link: u8) -> Option<u16>
        ensures least { result ≡ least_of ((plan_of self.now).random link) }
        ensures drawn { IsDrawn ((plan_of self.now).random link) result }
    {
        match self.ranges.get(usize::from(link)) {
            Some(range) => draw(*range, 0),
            None => None,
        }
    }

    /// The first link by which a packet with this body may leave, and at which of its bytes begins what leaves; nothing where it may
    /// leave by none.
    pub fn first_way(&self, body: &[u8]) -> Option<(u8, usize)>
        ensures { MatchOption result
            ((output : ℕ) (left : List ℕ) → BodyLeaves (plan_of self.now) body.now output left → ⊥)
            (λ way.
            (way.1 ≤ length body.now) ×
            BodyLeaves (plan_of self.now) body.now way.0 (drop way.1 body.now) ×
            IsFirst (plan_of self.now) body.now way.0) }
    {
        match find_front(&self.table, body) {
            Some(front) => Some((
                front.first,
                front.leaves_from(self.does_delete(front.first)),
            )),
            None => None,
        }
    }

    // Whether an output link deletes the front header.
    fn does_delete(&self, link: u8) -> bool
        ensures { result ≡ (plan_of self.now).deletes link }
    {
        match self.deletes.get(usize::from(link)) {
            Some(deletes) => *deletes,
            None => false,
        }
    }

    /// How many links it has: 32, with the two ends of each.
    pub fn links(&self) -> u8
        ensures count { result ≡ 32 }
        ensures holds { IsSwitch self.now }
    {
        self.inputs.len() as u8
    }

    /// How many packets and tokens were dropped; no more than 2^64 - 1 are counted.
    pub fn lost(&self) -> u64
        ensures { result ≡ (seen self.now).lost }
    {
        self.lost
    }

    // One more was dropped.
    fn drop_one(&mut self)
        ensures { self.new ≡ record self.old { lost = one_more self.old.lost } }
    {
        self.lost = self.lost.saturating_add(1);
    }
}

// Whether a link is of a group.
fn is_within(first: u8, last: u8, link: u8) -> bool
    ensures { IsTrue result ↔ ((first ≤ link) × (link ≤ last)) }
{
    first <= link && link <= last
}
