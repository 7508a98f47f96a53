//! The virtual channel processor of a node: the calls by which it is run, each a step of the node.
//!
//! A channel is named by its number in the network, a link by its number at the node, 0 to 3. A question about another link is
//! answered false, or with nothing. A call that finds no memory answers `Memory`, or with the message that it was given, and has
//! changed nothing.
ghost use Rattle.std.specs.Prelude.{◌≡◌, ◌≢◌, ◌<◌, ◌≤◌, None, Ok, ℕ, List, length, slice_get, ◌↔◌, [], false, Some, IsTrue, IsOk, IsSome, IfOk, IfErr, IfSome, OnOk, OnErr};
ghost use Rattle.vc_vcp.specs.Names.{named};
ghost use Rattle.std.specs.List.{AllByRecursion};
ghost use Rattle.vc_blocks.specs.Messages.{listed};
ghost use Rattle.vc_packets.specs.declared.packet.Packet.{Packet};
ghost use Rattle.vc_vcp.specs.Private.Bound.{IsBound};
ghost use Rattle.vc_vcp.specs.State.{CountsStray, IsInput, IsIdle, IsUnwanted, IsOpen, MayPut, MayGrant, IsPieceOf, limit_of};
ghost use Rattle.vc_vcp.specs.VcpView.{ends_of, seen, Inputs, IsKept, taken_of, passed_of};
ghost use Rattle.vc_vcp.specs.Private.VcpView.{Acks};
ghost use Rattle.vc_vcp.specs.Links.{new_vcp, Comes, LeavesWhole, Passes, Sends, SendsFct};
ghost use Rattle.vc_credit.specs.Ends.{IsFront};
ghost use Rattle.vc_vcp.specs.Steps.{Offers, Stops, Arrives, Stray};
ghost use Rattle.vc_vcp.specs.Able.{CanOffer, CanWant, CanFetch, CanStop, CanPut, CanLeaveWhole, CanGrant, CanPass, IsReady};
ghost use Rattle.std.specs.Option.{option_copied};
ghost use Rattle.vc_vcp.specs.Opening.{ends_given, AreDistinct};
ghost use Rattle.vc_tokens.specs.CodeTokens.{token};
ghost use Rattle.vc_tokens.specs.Tokens.{Byte, Fct, EndMark};
ghost use Rattle.vc_credit.specs.Laws.{NeedsPlace};

use crate::bound::Bound;
use crate::end::End;
use crate::hints::Hints;
use crate::input::{self, Input};
use crate::link_in::LinkIn;
use crate::link_out::LinkOut;
use crate::opening::{self, LINKS};
use crate::output::Output;
use crate::places::{input_of, input_on, output_of, output_on};
use crate::taken::{self, Taken};
use std::alloc::{AllocFailed, Global};
use std::marker::Model;
use vc_blocks::{Messages, Want};
use vc_packets::{Bytes, Kind, Mark, Memory, Packet, kind_of};
use vc_tokens::Token;

/// The virtual channel processor of a node: the halves of its virtual links, and the two ends of its four links.
pub struct Vcp {
    alloc: Global,
    outputs: Vec<Output>,
    inputs: Vec<Input>,
    outs: Vec<LinkOut>,
    ins: Vec<LinkIn>,
    strays: u64,
    output_hints: Box<Hints>,
    input_hints: Box<Hints>,
}

impl Drop for Vcp {
    // written, so that the crates above need not prove again how all that it holds is dropped
    fn drop(self) {
        let Vcp {
            alloc: _,
            outputs: _,
            inputs: _,
            outs: _,
            ins: _,
            strays: _,
            output_hints: _,
            input_hints: _,
        } = self;
    }
}

impl Model for Vcp {
    ghost use Rattle.vc_vcp.specs.State.{State, IsWired};

    ghost Value = { State };

    ghost view = { λ x. record {
      outputs = x.outputs.items;
      inputs = x.inputs.items;
      outs = x.outs.items;
      ins = x.ins.items;
      strays = x.strays;
    } };

    ghost invariant = { λ x. IsWired (record {
      outputs = x.outputs.items;
      inputs = x.inputs.items;
      outs = x.outs.items;
      ins = x.ins.items;
      strays = x.strays;
    }) };
}

impl Vcp {
    /// A node's virtual channel processor with these ends, each with a block and channels of its own, and nothing on its links, for
    /// packets whose headers and data have at most `body_limit` bytes.
    pub fn new(alloc: Global, ends: &[End], body_limit: usize) -> Result<Vcp, Memory>
        requires links { AllByRecursion (λ e. e.link < 4) ends.now }
        requires distinct { AreDistinct ends.now }
        ensures seen { IfOk result (λ vcp. seen vcp ≡ new_vcp) }
        ensures ends { IfOk result (λ vcp. ends_of vcp ≡ ends_given ends.now) }
        ensures limit { IfOk result (λ vcp. limit_of vcp.ins ≡ body_limit) }
    {
        let outputs = opening::outputs(alloc, ends)?;
        let inputs = opening::inputs(alloc, ends)?;
        let output_hints = Box::new(alloc, Hints::of_outputs(&outputs))?;
        let input_hints = Box::new(alloc, Hints::of_inputs(&inputs))?;
        Ok(Vcp {
            alloc,
            outputs,
            inputs,
            outs: opening::outs(alloc)?,
            ins: opening::ins(alloc, body_limit)?,
            strays: 0,
            output_hints,
            input_hints,
        })
    }

    /// A message is offered on a channel that the node outputs on and on which nothing is under way: its first piece is queued. If there is
    /// no memory, the error has the message, and nothing has changed.
    pub fn offer(&mut self, chan: u16, message: Bytes) -> Result<(), AllocFailed<Bytes>>
        requires { IsIdle self.old chan }
        ensures offers { OnOk result
            (Offers (ends_of self.old) (seen self.old).carrier chan message
            (seen self.new).carrier) }
        ensures links { (seen self.new).link ≡ (seen self.old).link }
        ensures kept { IsKept self.old self.new }
        ensures back { IfErr result (λ failed. failed.value ≡ message) }
        ensures err { OnErr result (self.new ≡ self.old) }
    {
        match output_on(&self.outputs, self.output_hints.on_chan(chan), chan) {
            Some(at) => {
                let link = usize::from(self.outputs[at].link);
                self.outputs[at].offer(&mut self.outs[link], self.alloc, message)
            }
            None => unreachable!(),
        }
    }

    /// A process inputs on a channel that is not stopped and on which none does: it takes the held piece, whose acknowledge is
    /// queued, or waits.
    pub fn want(&mut self, chan: u16) -> Result<Want, Memory>
        requires { IsOpen self.old chan }
        ensures inputs { IfOk result
            (λ w.
            Inputs (ends_of self.old) (seen self.old).carrier chan w (seen self.new).carrier) }
        ensures links { (seen self.new).link ≡ (seen self.old).link }
        ensures kept { IsKept self.old self.new }
        ensures err { OnErr result (self.new ≡ self.old) }
    {
        match input_on(&self.inputs, self.input_hints.on_chan(chan), chan) {
            Some(at) => {
                let link = usize::from(self.inputs[at].link);
                self.inputs[at].want(&mut self.outs[link], self.alloc)
            }
            None => unreachable!(),
        }
    }

    /// Whether a message may be offered on a channel: the node outputs on it, and nothing is under way. If so, any message may.
    pub fn may_offer(&self, chan: u16) -> bool
        ensures idle { IsTrue result ↔ IsIdle self.now chan }
        ensures can { (m : List ℕ) →
            IsTrue result ↔ CanOffer (ends_of self.now) (seen self.now).carrier chan m }
    {
        match self.output(chan) {
            Some(output) => output.half.is_idle(),
            None => false,
        }
    }

    /// Whether an input may begin on a channel: the node inputs on it, no process does yet, and it is not stopped.
    pub fn may_want(&self, chan: u16) -> bool
        ensures open { IsTrue result ↔ IsOpen self.now chan }
        ensures can { IsTrue result ↔ CanWant (ends_of self.now) (seen self.now).carrier chan }
    {
        match self.input(chan) {
            Some(input) => !input.half.wants() && !input.half.is_stopped(),
            None => false,
        }
    }

    /// Whether a piece is held on a channel that is not stopped, so that an input that may begin would take it at once.
    pub fn ready(&self, chan: u16) -> bool
        ensures ready { IsTrue result ↔ IsReady ((seen self.now).carrier.into chan) }
        ensures can { IsOpen self.now chan →
            IsTrue result ↔ CanFetch (ends_of self.now) (seen self.now).carrier chan }
    {
        match self.input(chan) {
            Some(input) => input.half.ready(),
            None => false,
        }
    }

    /// A channel is stopped: nothing more is taken on it.
    pub fn stopch(&mut self, chan: u16)
        requires { IsUnwanted self.old chan }
        ensures stops { Stops (ends_of self.old) (seen self.old).carrier chan
            (seen self.new).carrier }
        ensures links { (seen self.new).link ≡ (seen self.old).link }
        ensures kept { IsKept self.old self.new }
    {
        match input_on(&self.inputs, self.input_hints.on_chan(chan), chan) {
            Some(at) => self.inputs[at].half.stop(),
            None => unreachable!(),
        }
    }

    /// Whether a channel may be stopped: the node inputs on it, and no process does now.
    pub fn may_stop(&self, chan: u16) -> bool
        ensures unwanted { IsTrue result ↔ IsUnwanted self.now chan }
        ensures can { IsTrue result ↔ CanStop (ends_of self.now) (seen self.now).carrier chan }
    {
        match self.input(chan) {
            Some(input) => !input.half.wants(),
            None => false,
        }
    }

    /// The messages offered on a channel, the first one first; none where the node does not output on it.
    pub fn offered(&self, chan: u16) -> Messages<'_>
        ensures { listed result ≡ ((seen self.now).carrier.out chan).offered }
    {
        match self.output(chan) {
            Some(output) => Messages::of(&output.offered),
            None => Messages::none(),
        }
    }

    /// How many outputs on a channel are finished: all that were offered but the one under way. It is 0 where the node does not output
    /// on it.
    pub fn finished(&self, chan: u16) -> u64
        ensures { result ≡ ((seen self.now).carrier.out chan).finished }
    {
        match self.output(chan) {
            Some(output) => output.finished(),
            None => 0,
        }
    }

    /// The messages taken on a channel, the first one first; none where the node does not input on it.
    pub fn taken(&self, chan: u16) -> Messages<'_>
        ensures { listed result ≡ ((seen self.now).carrier.into chan).taken }
    {
        match self.input(chan) {
            Some(input) => Messages::of(&input.taken),
            None => Messages::none(),
        }
    }

    /// Whether a channel was stopped at this node; false where the node does not input on it.
    pub fn stopped(&self, chan: u16) -> bool
        ensures { result ≡ ((seen self.now).carrier.into chan).stopped }
    {
        match self.input(chan) {
            Some(input) => input.half.is_stopped(),
            None => false,
        }
    }

    /// Whether a piece is held on a channel.
    pub fn holds(&self, chan: u16) -> bool
        ensures { IsTrue result ↔ (((seen self.now).carrier.into chan).held ≢ None) }
    {
        match self.input(chan) {
            Some(input) => input.half.held().is_some(),
            None => false,
        }
    }

    // The output on a channel, where the node outputs on it.
    #[inline(always)]
    fn output(&self, chan: u16) -> Option<&Output>
        ensures { option_copied result ≡ named (λ x. x.chan) chan self.now.outputs }
    {
        let at = output_on(&self.outputs, self.output_hints.on_chan(chan), chan)?;
        Some(&self.outputs[at])
    }

    // The input on a channel, where the node inputs on it.
    #[inline(always)]
    fn input(&self, chan: u16) -> Option<&Input>
        ensures named { option_copied result ≡ named (λ x. x.chan) chan self.now.inputs }
        ensures is { IfSome result (λ input. IsInput input.now) }
    {
        let at = input_on(&self.inputs, self.input_hints.on_chan(chan), chan)?;
        Some(&self.inputs[at])
    }

    /// The sending end of a link.
    pub fn sending(&self, link: u8) -> &LinkOut
        requires { link < 4 }
        ensures { slice_get self.now.outs link ≡ Some result.now }
    {
        &self.outs[usize::from(link)]
    }

    /// The receiving end of a link.
    pub fn receiving(&self, link: u8) -> &LinkIn
        requires { link < 4 }
        ensures { slice_get self.now.ins link ≡ Some result.now }
    {
        &self.ins[usize::from(link)]
    }

    /// Whether a token may pass from a link's buffer: one waits.
    pub fn may_pass(&self, link: u8) -> bool
        ensures waits { IsTrue result ↔ (((seen self.now).link link).receiver.buffer ≢ []) }
        ensures can { IsTrue result ↔
            CanPass (limit_of self.now.ins) (ends_of self.now) (seen self.now) link }
    {
        prove!(self.links() == 4);
        let at = usize::from(link);
        at < LINKS && !self.ins[at].is_empty()
    }

    /// The packet at the front of a link's send queue, if one waits.
    pub fn front_out(&self, link: u8) -> Option<&Packet>
        ensures { option_copied result ≡ slice_get ((seen self.now).carrier.queue link) 0 }
    {
        match self.outs.get(usize::from(link)) {
            Some(out) => out.front(),
            None => None,
        }
    }

    /// Takes the packet at the front of a link's send queue out of it, for a client that carries whole packets; `put` gives the
    /// same packets token by token. The answer is none, and nothing changes, where no packet waits, where a token of the first one was
    /// put, or where the node has no such link.
    pub fn next_out(&mut self, link: u8) -> Option<Packet>
        ensures can { IsSome result ↔ CanLeaveWhole (seen self.old) link }
        ensures leaves { IfSome result (λ p. LeavesWhole (seen self.old) link p (seen self.new)) }
        ensures kept { IsKept self.old self.new }
        ensures none { result ≡ None → self.new ≡ self.old }
    {
        if link >= self.links() {
            return None;
        }
        self.outs[usize::from(link)].take_front()
    }

    /// Whether a token may be put on a link: there is credit, and a packet waits.
    pub fn may_put(&self, link: u8) -> bool
        ensures may { IsTrue result ↔ MayPut self.now link }
        ensures can { IsTrue result ↔ CanPut (seen self.now) link }
    {
        prove!(self.links() == 4);
        let at = usize::from(link);
        at < LINKS && self.outs[at].may_put()
    }

    /// Puts the next token of the packet at the front of a link's send queue; with its mark the packet leaves the queue.
    #[inline(always)]
    pub fn put(&mut self, link: u8) -> Token
        requires { MayPut self.old link }
        ensures sends { Sends (seen self.old) link (token result) (seen self.new) }
        ensures kept { IsKept self.old self.new }
    {
        self.outs[usize::from(link)].put()
    }

    /// Whether an FCT may be put on a link: eight places of its buffer are free and not promised.
    pub fn may_grant(&self, link: u8) -> bool
        ensures may { IsTrue result ↔ MayGrant self.now link }
        ensures can { IsTrue result ↔ ((link < 4) × CanGrant (seen self.now) link) }
    {
        prove!(self.links() == 4);
        let at = usize::from(link);
        at < LINKS && self.ins[at].may_grant()
    }

    /// An FCT is put on a link.
    pub fn grant(&mut self, link: u8)
        requires { MayGrant self.old link }
        ensures grants { SendsFct (seen self.old) link (seen self.new) }
        ensures kept { IsKept self.old self.new }
    {
        self.ins[usize::from(link)].grant();
    }

    /// A token comes over a link: an FCT is credit, all else goes to the buffer. It is dropped and counted where it is not due, or
    /// where the node has no such link.
    #[inline(always)]
    pub fn accept(&mut self, link: u8, came: Token)
        ensures comes { link < 4 → Comes (seen self.old) link (token came) (seen self.new) }
        ensures beyond { 4 ≤ link → CountsStray self.old self.new }
        ensures kept { IsKept self.old self.new }
    {
        if usize::from(link) >= LINKS {
            self.drop_one();
            return;
        }
        match came {
            Token::Fct => self.accept_credit(link),
            Token::Byte(_) | Token::Eop | Token::Eom => self.accept_data(link, came),
        }
    }

    // An FCT comes.
    fn accept_credit(&mut self, link: u8)
        requires { link < 4 }
        ensures comes { Comes (seen self.old) link Fct (seen self.new) }
        ensures kept { IsKept self.old self.new }
    {
        let out = usize::from(link);
        if self.outs[out].may_credit() {
            self.outs[out].credit();
        } else {
            self.drop_one();
        }
    }

    // A token comes that needs a place.
    fn accept_data(&mut self, link: u8, came: Token)
        requires link { link < 4 }
        requires place { NeedsPlace (token came) }
        ensures comes { Comes (seen self.old) link (token came) (seen self.new) }
        ensures kept { IsKept self.old self.new }
    {
        let into = usize::from(link);
        if self.ins[into].is_promised() {
            self.ins[into].accept(came);
        } else {
            self.drop_one();
        }
    }

    /// A token passes from a link's buffer: a byte joins the packet that is arriving, or is dropped and counted past the limit, and
    /// with its mark the packet reaches its half. Only a mark may find no memory. Where no token waits, nothing changes.
    #[inline(always)]
    pub fn pass(&mut self, link: u8) -> Result<Option<Taken>, Memory>
        requires { link < 4 }
        ensures passes { ((seen self.old).link link).receiver.buffer ≢ [] →
            IfOk result
            (λ t.
            Passes (limit_of self.old.ins) (ends_of self.old) (seen self.old) link
            (passed_of t) (seen self.new)) }
        ensures bytes { (byte : ℕ) →
            IsFront ((seen self.old).link link).receiver (Byte byte) →
            IsOk result }
        ensures quiet { ((seen self.old).link link).receiver.buffer ≡ [] →
            (result ≡ Ok None) × (self.new ≡ self.old) }
        ensures kept { IsKept self.old self.new }
        ensures err { OnErr result (self.new ≡ self.old) }
    {
        match self.ins[usize::from(link)].front() {
            Some(Token::Byte(byte)) => {
                self.pass_byte(link, byte);
                Ok(None)
            }
            Some(Token::Eop) => self.pass_mark(link, Mark::Eop),
            Some(Token::Eom) => self.pass_mark(link, Mark::Eom),
            Some(Token::Fct) => unreachable!(),
            None => Ok(None),
        }
    }

    /// The byte at the front of a link's buffer passes: it joins the packet that is arriving, or is dropped and counted past the limit.
    #[inline(always)]
    pub fn pass_byte(&mut self, link: u8, byte: u8)
        requires link { link < 4 }
        requires front { IsFront ((seen self.old).link link).receiver (Byte byte) }
        ensures passes { Passes (limit_of self.old.ins) (ends_of self.old) (seen self.old) link None
            (seen self.new) }
        ensures kept { IsKept self.old self.new }
    {
        let at = usize::from(link);
        if !self.ins[at].pass_byte(byte) {
            self.drop_one();
        }
    }

    // The mark at the front of a link's buffer passes.
    fn pass_mark(&mut self, link: u8, mark: Mark) -> Result<Option<Taken>, Memory>
        requires link { link < 4 }
        requires front { IsFront ((seen self.old).link link).receiver (EndMark mark) }
        ensures passes { IfOk result
            (λ t.
            Passes (limit_of self.old.ins) (ends_of self.old) (seen self.old) link (passed_of t)
            (seen self.new)) }
        ensures kept { IsKept self.old self.new }
        ensures err { OnErr result (self.new ≡ self.old) }
    {
        let at = usize::from(link);
        let taken = self.take_passed(at, mark)?;
        self.ins[at].pass_mark();
        Ok(Some(taken))
    }

    // The packet whose bytes have passed at a link reaches, with its mark, the half that it is bound for.
    fn take_passed(&mut self, at: usize, mark: Mark) -> Result<Taken, Memory>
        requires { at < 4 }
        ensures arrives { IfOk result
            (λ t.
            Arrives (ends_of self.old) (seen self.old).carrier
            (record { body = ((seen self.old).link at).passed; mark = mark }) (taken_of t)
            (seen self.new).carrier) }
        ensures links { (seen self.new).link ≡ (seen self.old).link }
        ensures kept { IsKept self.old self.new }
        ensures err { OnErr result (self.new ≡ self.old) }
    {
        match self.bound_for(self.ins[at].passed(), mark) {
            Bound::Output { block } => self.acked(block),
            Bound::Input { at: to } => {
                let body = self.ins[at].passed();
                input::arrive(&mut self.inputs, to, &mut self.outs, self.alloc, body, mark)
            }
            Bound::Nowhere => Ok(self.stray()),
        }
    }

    /// A packet reaches the half that its block and its kind name: a piece is held, or stored and its acknowledge queued; an
    /// acknowledge has the next piece queued, or finishes the output. What no half may take is dropped and counted: a packet of
    /// no block here, a malformed one, an acknowledge for an idle half, a piece for a full one.
    pub fn take(&mut self, packet: &Packet) -> Result<Taken, Memory>
        ensures arrives { IfOk result
            (λ t.
            Arrives (ends_of self.old) (seen self.old).carrier packet.now (taken_of t)
            (seen self.new).carrier) }
        ensures links { (seen self.new).link ≡ (seen self.old).link }
        ensures kept { IsKept self.old self.new }
        ensures err { OnErr result (self.new ≡ self.old) }
    {
        let body = packet.body.as_slice();
        match self.bound_for(body, packet.mark) {
            Bound::Output { block } => self.acked(block),
            Bound::Input { at } => input::arrive(
                &mut self.inputs,
                at,
                &mut self.outs,
                self.alloc,
                body,
                packet.mark,
            ),
            Bound::Nowhere => Ok(self.stray()),
        }
    }

    // Where a packet of these bytes and this mark is bound for.
    fn bound_for(&self, body: &[u8], mark: Mark) -> Bound
        ensures { IsBound self.now (record { body = body.now; mark = mark }) result }
    {
        let [high, low, load @ ..] = body else {
            return Bound::Nowhere;
        };
        let block = u16::from_be_bytes([*high, *low]);
        match kind_of(load, mark) {
            Kind::Ack => Bound::Output { block },
            Kind::Piece { .. } => self.empty_input(block),
            Kind::Malformed => Bound::Nowhere,
        }
    }

    // An acknowledge comes to a block.
    fn acked(&mut self, block: u16) -> Result<Taken, Memory>
        ensures arrives { IfOk result (λ t. Acks self.old block (taken_of t) self.new) }
        ensures links { (seen self.new).link ≡ (seen self.old).link }
        ensures kept { IsKept self.old self.new }
        ensures err { OnErr result (self.new ≡ self.old) }
    {
        let Some(at) = output_of(&self.outputs, self.output_hints.of_block(block), block) else {
            return Ok(self.stray());
        };
        if self.outputs[at].half.is_idle() {
            return Ok(self.stray());
        }
        let link = usize::from(self.outputs[at].link);
        let chan = self.outputs[at].chan;
        let advance = self.outputs[at].acked(&mut self.outs[link], self.alloc)?;
        Ok(taken::of_advance(chan, advance))
    }

    // Where a piece for a block is bound for: the input of the block, where there is one that holds nothing.
    fn empty_input(&self, block: u16) -> Bound
        ensures { (p : Packet) → IsPieceOf block p → IsBound self.now p result }
    {
        let Some(at) = input_of(&self.inputs, self.input_hints.of_block(block), block) else {
            return Bound::Nowhere;
        };
        if self.inputs[at].half.may_arrive() {
            Bound::Input { at }
        } else {
            Bound::Nowhere
        }
    }

    // No half may take a packet.
    fn stray(&mut self) -> Taken
        ensures stray { taken_of result ≡ Stray }
        ensures counted { CountsStray self.old self.new }
    {
        self.drop_one();
        Taken::Stray
    }

    /// How many links a node has: four, each with an end that sends and an end that receives.
    pub fn links(&self) -> u8
        ensures four { result ≡ 4 }
        ensures ends { (length self.now.outs ≡ 4) × (length self.now.ins ≡ 4) }
    {
        self.outs.len() as u8
    }

    /// How many packets and tokens were dropped; no more than 2^64 - 1 are counted.
    pub fn strays(&self) -> u64
        ensures { result ≡ self.now.strays }
    {
        self.strays
    }

    // One more was dropped.
    fn drop_one(&mut self)
        ensures { CountsStray self.old self.new }
    {
        self.strays = self.strays.saturating_add(1);
    }
}
