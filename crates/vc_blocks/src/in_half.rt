//! The half that inputs.
ghost use Rattle.std.specs.Prelude.{◌≡◌, ◌≢◌, ◌≤◌, length, drop, false, true, None, [], ◌++◌, ◌↔◌, IsTrue, IfOk, IfSome, OnOk, OnErr};
ghost use Rattle.std.specs.Option.{option_copied};
ghost use Rattle.vc_blocks.specs.Halves.{IsPiece};
ghost use Rattle.vc_blocks.specs.Arrivals.{after_arrival, arrival_of, after_want, want_of};

use std::alloc::Global;
use std::marker::Model;
use std::mem;
use vc_packets::{Bytes, Mark, Memory, Packet};

/// The half of a virtual link's end that inputs. It holds one packet at most.
#[derive(Drop)]
pub struct InHalf {
    alloc: Global,
    wants: bool,
    stopped: bool,
    held: Option<Packet>,
    stored: Bytes,
}

/// What became of a piece that arrived.
#[derive(Debug, Drop)]
pub enum Arrival {
    /// No process inputs: the piece is held, and its acknowledge waits.
    Held,
    /// It was stored, and more pieces follow.
    Stored,
    /// It was stored, and the message is whole.
    Complete(Bytes),
}

/// What an input finds.
#[derive(Debug, Drop)]
pub enum Want {
    /// No piece is there: the input waits.
    Waits,
    /// The held piece was stored, and more pieces follow.
    Stored,
    /// The held piece was stored, and the message is whole.
    Complete(Bytes),
}

impl Model for InHalf {
    ghost use Rattle.vc_blocks.specs.Halves.{Incoming, HoldsPiece};

    ghost Value = { Incoming };

    ghost view = { λ half. record {
      wants = half.wants;
      stopped = half.stopped;
      held = half.held;
      stored = half.stored;
    } };

    ghost invariant = { λ half. HoldsPiece half.held };
}

impl InHalf {
    /// A half on which no process inputs, with nothing held.
    pub fn new(alloc: Global) -> InHalf
        ensures { result ≡ record { wants = false; stopped = false; held = None; stored = [] } }
    {
        InHalf {
            alloc,
            wants: false,
            stopped: false,
            held: None,
            stored: Bytes::new(alloc),
        }
    }

    /// Whether nothing is held, so that a piece may arrive.
    pub fn may_arrive(&self) -> bool
        ensures { IsTrue result ↔ (self.now.held ≡ None) }
    {
        self.held.is_none()
    }

    /// Whether a process inputs.
    pub fn wants(&self) -> bool
        ensures { result ≡ self.now.wants }
    {
        self.wants
    }

    /// Whether the channel was stopped.
    pub fn is_stopped(&self) -> bool
        ensures { result ≡ self.now.stopped }
    {
        self.stopped
    }

    /// Whether a piece is held and the channel is not stopped.
    pub fn ready(&self) -> bool
        ensures { IsTrue result ↔ ((self.now.held ≢ None) × (self.now.stopped ≡ false)) }
    {
        self.held.is_some() && !self.stopped
    }

    /// Nothing more is taken.
    pub fn stop(&mut self)
        requires { self.old.wants ≡ false }
        ensures { self.new ≡ record self.old { stopped = true } }
    {
        self.stopped = true;
    }

    /// The held piece.
    pub fn held(&self) -> Option<&Packet>
        ensures held { option_copied result ≡ self.now.held }
        ensures piece { IfSome result (λ packet. IsPiece packet.now) }
    {
        self.held.as_ref()
    }

    /// The bytes stored of the message that is arriving.
    pub fn stored(&self) -> &[u8]
        ensures { result.now ≡ self.now.stored }
    {
        self.stored.as_slice()
    }

    /// A piece arrives: it is stored where a process inputs, and else held.
    pub fn arrive(&mut self, packet: &Packet) -> Result<Arrival, Memory>
        requires empty { self.old.held ≡ None }
        requires piece { IsPiece packet.now }
        ensures ok { OnOk result (self.new ≡ after_arrival self.old packet.now self.old.wants) }
        ensures arrival { IfOk result (λ a. a ≡ arrival_of self.old packet.now self.old.wants) }
        ensures err { OnErr result (self.new ≡ self.old) }
    {
        self.arrive_body(packet.body.as_slice(), packet.mark)
    }

    /// A piece of these headers and data, with this mark, arrives: it is stored where a process inputs, and else held.
    #[inline(always)]
    pub fn arrive_body(&mut self, body: &[u8], mark: Mark) -> Result<Arrival, Memory>
        requires empty { self.old.held ≡ None }
        requires piece { IsPiece (record { body = body.now; mark = mark }) }
        ensures ok { OnOk result
            (self.new ≡
            after_arrival self.old (record { body = body.now; mark = mark }) self.old.wants) }
        ensures arrival { IfOk result
            (λ a.
            a ≡ arrival_of self.old (record { body = body.now; mark = mark }) self.old.wants) }
        ensures err { OnErr result (self.new ≡ self.old) }
    {
        if !self.wants {
            let body = Bytes::from_slice(self.alloc, body)?;
            self.held = Some(Packet { body, mark });
            return Ok(Arrival::Held);
        }
        store(&mut self.stored, body)?;
        match mark {
            Mark::Eop => Ok(Arrival::Stored),
            Mark::Eom => Ok(Arrival::Complete(self.complete())),
        }
    }

    /// A process inputs: it takes the held piece, or waits.
    pub fn want(&mut self) -> Result<Want, Memory>
        requires idle { self.old.wants ≡ false }
        requires not_stopped { self.old.stopped ≡ false }
        ensures ok { OnOk result (self.new ≡ after_want self.old self.old.held) }
        ensures want { IfOk result (λ w. w ≡ want_of self.old self.old.held) }
        ensures err { OnErr result (self.new ≡ self.old) }
    {
        let mark = match &self.held {
            None => {
                self.wants = true;
                return Ok(Want::Waits);
            }
            Some(packet) => {
                store(&mut self.stored, packet.body.as_slice())?;
                packet.mark
            }
        };
        self.held = None;
        match mark {
            Mark::Eop => {
                self.wants = true;
                Ok(Want::Stored)
            }
            Mark::Eom => Ok(Want::Complete(self.complete())),
        }
    }

    // The message is whole, and no process inputs any more.
    fn complete(&mut self) -> Bytes
        requires { self.old.held ≡ None }
        ensures after { self.new ≡ record self.old { wants = false; stored = [] } }
        ensures message { result ≡ self.old.stored }
    {
        self.wants = false;
        mem::replace(&mut self.stored, Bytes::new(self.alloc))
    }
}

// A piece's data goes to the end of the message that is arriving.
fn store(stored: &mut Bytes, body: &[u8]) -> Result<(), Memory>
    requires { 2 ≤ length body.now }
    ensures ok { OnOk result (stored.new ≡ stored.old ++ drop 2 body.now) }
    ensures err { OnErr result (stored.new ≡ stored.old) }
{
    stored.extend_from_slice(&body[2..])?;
    Ok(())
}
