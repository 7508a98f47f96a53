//! The sending end of a node's link: packets wait in its queue, and the one at the front goes out token by token.
//!
//! Each token that is put spends one of the credit, and an FCT that comes adds eight. A packet leaves the queue with its mark.
ghost use Rattle.std.specs.Prelude.{◌≡◌, ◌≢◌, ◌<◌, ◌≤◌, ◌+◌, [], ◌∷◌, ◌++◌, ◌↔◌, None, IsTrue, IfSome, OnOk, OnErr, slice_get, drop};
ghost use Rattle.vc_tokens.specs.CodeTokens.{token};
ghost use Rattle.vc_credit.specs.Ends.{credited};
ghost use Rattle.vc_vcp.specs.Private.LinkOut.{PutsFront, CanPutFront, FrontLeavesWhole, HasNoneWhole, Unqueues};
ghost use Rattle.std.specs.Bool.{OnTrue};
ghost use Rattle.std.specs.Option.{option_copied};

use std::alloc::Global;
use std::collections::VecDeque;
use std::marker::Model;
use vc_credit::Sender;
use vc_packets::{Memory, Packet};
use vc_tokens::Token;

/// The sending end of a node's link: the packets that wait to go out, first in first out, how far the front one has been put, and
/// the credit.
#[derive(Drop)]
pub struct LinkOut {
    queue: VecDeque<Packet>,
    sent: usize,
    credit: Sender,
}

impl Model for LinkOut {
    ghost use Rattle.vc_vcp.specs.LinkOut.{Sending, sent_of, IsWithinFront};

    ghost Value = { Sending };

    ghost view = { λ x. record {
      queue = x.queue.items;
      sender = record { sent = sent_of x.queue.items x.sent; credit = x.credit };
    } };

    ghost invariant = { λ x. IsWithinFront x.queue.items x.sent };
}

impl LinkOut {
    /// A link with no packet and no credit.
    pub(crate) fn new(alloc: Global) -> LinkOut
        ensures { result ≡ record { queue = []; sender = record { sent = []; credit = 0 } } }
    {
        LinkOut {
            queue: VecDeque::new(alloc),
            sent: 0,
            credit: Sender::new(),
        }
    }

    /// A packet more at the end of the queue.
    pub(crate) fn enqueue(&mut self, packet: Packet) -> Result<(), Memory>
        ensures ok { OnOk result
            (self.new ≡ record self.old { queue = self.old.queue ++ packet ∷ [] }) }
        ensures err { OnErr result (self.new ≡ self.old) }
        ensures begun { self.old.queue ≡ [] → self.old.sender.sent ≡ [] }
    {
        self.queue.push_back(packet)?;
        Ok(())
    }

    /// The packet that was queued last leaves the queue again.
    pub(crate) fn unqueue(&mut self)
        ensures { Unqueues self.old self.new }
    {
        let _last = self.queue.pop_back();
        if self.queue.is_empty() {
            self.sent = 0;
        }
    }

    /// The packet at the front.
    pub(crate) fn front(&self) -> Option<&Packet>
        ensures { option_copied result ≡ slice_get self.now.queue 0 }
    {
        self.queue.front()
    }

    /// Takes the packet at the front out of the queue; none where no packet waits, or where a token of the first one was put.
    pub(crate) fn take_front(&mut self) -> Option<Packet>
        ensures takes { IfSome result (λ p. FrontLeavesWhole self.old p self.new) }
        ensures none { result ≡ None → HasNoneWhole self.old }
        ensures same { result ≡ None → self.new ≡ self.old }
    {
        if self.sent > 0 {
            return None;
        }
        self.queue.pop_front()
    }

    /// The packets that wait, in two parts: those of the first go out before those of the second.
    pub fn packets(&self) -> (&[Packet], &[Packet])
        ensures { result.0.now ++ result.1.now ≡ self.now.queue }
    {
        self.queue.as_slices()
    }

    /// How many more tokens may be put: at most 16.
    pub fn credit_left(&self) -> u8
        ensures { result ≡ self.now.sender.credit }
    {
        self.credit.credit()
    }

    /// Whether a token may be put: there is credit, and a packet.
    pub(crate) fn may_put(&self) -> bool
        ensures may { IsTrue result ↔ ((0 < self.now.sender.credit) × (self.now.queue ≢ [])) }
        ensures can { OnTrue result (CanPutFront self.now) }
    {
        self.credit.may_send() && !self.queue.is_empty()
    }

    /// Whether a flow control token is due: the credit is at most 8.
    pub(crate) fn may_credit(&self) -> bool
        ensures { IsTrue result ↔ (self.now.sender.credit ≤ 8) }
    {
        self.credit.may_fct()
    }

    /// Eight more tokens may be put.
    pub(crate) fn credit(&mut self)
        requires { self.old.sender.credit ≤ 8 }
        ensures { self.new ≡ record self.old { sender = credited self.old.sender } }
    {
        self.credit.fct();
    }

    /// Puts the next token of the packet at the front: its next byte, or its mark, with which it leaves the queue.
    #[inline(always)]
    pub(crate) fn put(&mut self) -> Token
        requires credit { 0 < self.old.sender.credit }
        requires packet { self.old.queue ≢ [] }
        ensures { PutsFront self.old (token result) self.new }
    {
        self.credit.spend();
        let packet = &self.queue[0];
        let mark = packet.mark;
        let length = packet.body.len();
        let next = packet.body.get(self.sent).copied();
        match next {
            Some(byte) => {
                prove!(self.sent < length);
                self.sent += 1;
                Token::Byte(byte)
            }
            None => {
                self.leave();
                Token::from(mark)
            }
        }
    }

    // The packet at the front leaves the queue.
    fn leave(&mut self)
        ensures { self.new ≡
            record self.old
            { queue = drop 1 self.old.queue; sender = record self.old.sender { sent = [] } } }
    {
        self.sent = 0;
        let _sent = self.queue.pop_front();
    }
}
