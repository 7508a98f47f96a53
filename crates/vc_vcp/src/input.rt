//! Channels that a node inputs on: the receiving half of a virtual link, with its log of what was taken.
//!
//! A stored piece is acknowledged, a held one is not. The acknowledge is queued and a whole message logged before the half
//! changes, and both are taken back where the half finds no memory, so that the input and the queue are then as they were.
ghost use Rattle.std.specs.Prelude.{◌≡◌, ◌≤◌, [], ◌++◌, ℕ, List, length, Some, None, false, true, if◌then◌else◌, IfOk, OnOk, OnErr};
ghost use Rattle.vc_blocks.specs.Halves.{IsPiece, ends_message};
ghost use Rattle.vc_blocks.specs.Arrivals.{after_arrival, arrival_of, after_want, want_of};
ghost use Rattle.std.specs.Option.{option_to_list};
ghost use Rattle.vc_packets.specs.Spellings.{ack_packet};
ghost use Rattle.vc_vcp.specs.State.{IsInput, IsPieceOf};
ghost use Rattle.vc_vcp.specs.Private.Bound.{MayTake, StaysWith, ArrivesWith};
ghost use Rattle.vc_vcp.specs.VcpView.{taken_of};
ghost use Rattle.std.specs.List.{AllByRecursion};
ghost use Rattle.vc_vcp.specs.Private.LinkOut.{Unqueues};
ghost use Rattle.vc_vcp.specs.Private.Queues.{StaysInput, completed, queued, logged, acknowledged, logged_by, acknowledged_by};

use crate::link_out::LinkOut;
use crate::taken::{self, Taken};
use sqlite_items::Items;
use std::alloc::Global;
use vc_blocks::{Arrival, InHalf, MessageLog, Want};
use vc_packets::{Bytes, Mark, Memory, ack};

/// A channel that the node inputs on: the end of its virtual link, the half, and the messages taken.
#[derive(Drop)]
pub(crate) struct Input {
    pub(crate) chan: u16,
    pub(crate) link: u8,
    pub(crate) block: u16,
    pub(crate) route: Items<u16>,
    pub(crate) half: InHalf,
    pub(crate) taken: MessageLog,
}

impl Input {
    /// A piece arrives: it is held, or stored and its acknowledge queued.
    pub(crate) fn arrive(
        &mut self,
        queue: &mut LinkOut,
        alloc: Global,
        body: &[u8],
        mark: Mark,
    ) -> Result<Arrival, Memory>
        requires empty { self.old.half.held ≡ None }
        requires piece { IsPiece (record { body = body.now; mark = mark }) }
        ensures sender { queue.new.sender ≡ queue.old.sender }
        ensures stays { StaysInput self.old self.new }
        ensures is { IsInput self.old →
            IsPieceOf self.old.block (record { body = body.now; mark = mark }) →
            IsInput self.new }
        ensures arrival { IfOk result
            (λ a.
            a ≡
            arrival_of self.old.half (record { body = body.now; mark = mark })
            self.old.half.wants) }
        ensures input { IfOk result
            (λ a.
            self.new ≡
            record self.old {
              half = after_arrival self.old.half
                  (record { body = body.now; mark = mark }) self.old.half.wants;
              taken
                  = logged self.old.taken a;
            }) }
        ensures queue { IfOk result (λ a. queue.new ≡ acknowledged queue.old self.old.route a) }
        ensures err { OnErr result (self.new ≡ self.old) }
        ensures err_queue { OnErr result (queue.new ≡ queue.old) }
    {
        if !self.half.wants() {
            return self.half.arrive_body(body, mark);
        }
        self.store(queue, alloc, body, mark)
    }

    /// A process inputs: the held piece is stored and its acknowledge queued, or the input waits.
    pub(crate) fn want(&mut self, queue: &mut LinkOut, alloc: Global) -> Result<Want, Memory>
        requires idle { self.old.half.wants ≡ false }
        requires not_stopped { self.old.half.stopped ≡ false }
        ensures sender { queue.new.sender ≡ queue.old.sender }
        ensures stays { StaysInput self.old self.new }
        ensures is { IsInput self.old → IsInput self.new }
        ensures want { IfOk result (λ w. w ≡ want_of self.old.half self.old.half.held) }
        ensures input { IfOk result
            (λ w.
            self.new ≡
            record self.old {
              half = after_want self.old.half self.old.half.held;
              taken = logged_by
                  self.old.taken w;
            }) }
        ensures queue { IfOk result (λ w. queue.new ≡ acknowledged_by queue.old self.old.route w) }
        ensures err { OnErr result (self.new ≡ self.old) }
        ensures err_queue { OnErr result (queue.new ≡ queue.old) }
    {
        let mark = match self.half.held() {
            None => return self.half.want(),
            Some(packet) => {
                let body = Bytes::from_slice(alloc, packet.body.as_slice())?;
                let mark = packet.mark;
                self.prepare(queue, alloc, body.as_slice(), mark)?;
                mark
            }
        };
        let wanted = self.half.want();
        if wanted.is_err() {
            self.undo(queue, mark);
        }
        wanted
    }

    // A piece arrives for a process that inputs: it is stored, and its acknowledge queued.
    fn store(
        &mut self,
        queue: &mut LinkOut,
        alloc: Global,
        body: &[u8],
        mark: Mark,
    ) -> Result<Arrival, Memory>
        requires wanted { self.old.half.wants ≡ true }
        requires empty { self.old.half.held ≡ None }
        requires piece { IsPiece (record { body = body.now; mark = mark }) }
        ensures sender { queue.new.sender ≡ queue.old.sender }
        ensures stays { StaysInput self.old self.new }
        ensures is { IsInput self.old → IsInput self.new }
        ensures arrival { IfOk result
            (λ a. a ≡ arrival_of self.old.half (record { body = body.now; mark = mark }) true) }
        ensures input { IfOk result
            (λ a.
            self.new ≡
            record self.old {
              half = after_arrival self.old.half
                  (record { body = body.now; mark = mark }) true;
              taken = logged
                  self.old.taken a;
            }) }
        ensures queue { IfOk result (λ a. queue.new ≡ acknowledged queue.old self.old.route a) }
        ensures err { OnErr result (self.new ≡ self.old) }
        ensures err_queue { OnErr result (queue.new ≡ queue.old) }
    {
        self.prepare(queue, alloc, body, mark)?;
        let arrived = self.half.arrive_body(body, mark);
        if arrived.is_err() {
            self.undo(queue, mark);
        }
        arrived
    }

    // An acknowledge is queued, and the message logged that a piece of these headers and data completes.
    fn prepare(
        &mut self,
        queue: &mut LinkOut,
        alloc: Global,
        body: &[u8],
        mark: Mark,
    ) -> Result<(), Memory>
        requires { 2 ≤ length body.now }
        ensures input { OnOk result
            (self.new ≡
            record self.old {
              taken = self.old.taken ++
                  option_to_list
                  (completed self.old.half.stored (record { body = body.now; mark = mark }));
            }) }
        ensures queue { OnOk result (queue.new ≡ queued queue.old (ack_packet self.old.route)) }
        ensures begun { OnOk result (queue.old.queue ≡ [] → queue.old.sender.sent ≡ []) }
        ensures err { OnErr result (self.new ≡ self.old) }
        ensures err_queue { OnErr result (queue.new ≡ queue.old) }
    {
        let answer = ack(alloc, self.route.as_slice())?;
        queue.enqueue(answer)?;
        if self.log(body, mark).is_err() {
            queue.unqueue();
            return Err(Memory);
        }
        Ok(())
    }

    // The message is logged that a piece of these headers and data completes.
    fn log(&mut self, body: &[u8], mark: Mark) -> Result<(), Memory>
        requires { 2 ≤ length body.now }
        ensures ok { OnOk result
            (self.new ≡
            record self.old {
              taken = self.old.taken ++
                  option_to_list
                  (completed self.old.half.stored (record { body = body.now; mark = mark }));
            }) }
        ensures err { OnErr result (self.new ≡ self.old) }
    {
        match mark {
            Mark::Eop => Ok(()),
            Mark::Eom => self.taken.push_joined(self.half.stored(), &body[2..]),
        }
    }

    // What was prepared for a piece of this mark is taken back.
    fn undo(&mut self, queue: &mut LinkOut, mark: Mark)
        ensures queue { Unqueues queue.old queue.new }
        ensures input { (taken : List (List ℕ)) (more : List (List ℕ)) →
            length more ≡ (if ends_message mark then 1 else 0) →
            self.old.taken ≡ taken ++ more →
            self.new ≡ record self.old { taken = taken } }
    {
        queue.unqueue();
        match mark {
            Mark::Eop => {}
            Mark::Eom => self.taken.pop(),
        }
    }
}

/// A piece reaches the input at a place, which holds nothing: it is held, or stored and its acknowledge queued.
pub(crate) fn arrive(
    inputs: &mut [Input],
    at: usize,
    outs: &mut [LinkOut],
    alloc: Global,
    body: &[u8],
    mark: Mark,
) -> Result<Taken, Memory>
    requires may { MayTake inputs.old at (record { body = body.now; mark = mark }) }
    requires inputs { AllByRecursion IsInput inputs.old }
    requires four { length outs.old ≡ 4 }
    ensures stays { StaysWith inputs.old outs.old inputs.new outs.new }
    ensures arrives { IfOk result
        (λ t.
        ArrivesWith inputs.old outs.old (record { body = body.now; mark = mark }) (taken_of t)
        inputs.new outs.new) }
    ensures err { OnErr result (inputs.new ≡ inputs.old) }
    ensures err_outs { OnErr result (outs.new ≡ outs.old) }
{
    let input = &mut inputs[at];
    let queue = &mut outs[usize::from(input.link)];
    let arrival = input.arrive(queue, alloc, body, mark)?;
    Ok(taken::of_arrival(input.chan, arrival))
}
