//! Channels inside a node: an output and an input meet there in one step.
ghost use Rattle.std.specs.Prelude.{◌≡◌, ◌<◌, ◌≤◌, ◌↔◌, [], ◌∷◌, ◌++◌, All, length, slice_get, ℕ, false, Some, None, IsTrue, IsSome, IfOk, OnOk, OnErr, IfSome, MatchOption};
ghost use Rattle.vc_actor.specs.Inside.{IsOpen};
ghost use Rattle.vc_actor.specs.Private.Inside.{exchanged_on, stopped_on, opened_inside, opened_internal};
ghost use Rattle.vc_actor.specs.ActorView.{views_of};
ghost use Rattle.vc_blocks.specs.Messages.{listed};
ghost use Rattle.vc_vcp.specs.Names.{named, NamesDiffer};

use std::alloc::Global;
use std::marker::Model;
use vc_blocks::{MessageLog, Messages};
use vc_packets::Memory;
use vc_plan::{Channel, Home};

/// A channel inside a node: the messages that went over it, and whether it is stopped.
#[derive(Drop)]
pub(crate) struct Internal {
    pub(crate) chan: u16,
    pub(crate) messages: MessageLog,
    pub(crate) stopped: bool,
}

/// The channels inside a node.
#[derive(Drop)]
pub(crate) struct Inside {
    channels: Vec<Internal>,
}

impl Model for Inside {
    ghost use Rattle.std.specs.Prelude.{List};
    ghost use Rattle.vc_vcp.specs.Names.{NamesDiffer};
    ghost use Rattle.vc_actor.specs.declared.inside.Internal.{Internal};

    ghost Value = { List Internal };

    ghost view = { λ x. x.channels.items };

    ghost invariant = { λ x. NamesDiffer (λ y. y.chan) x.channels.items };
}

impl Inside {
    /// The channels that are inside the node of this number, with nothing on them.
    pub(crate) fn new(alloc: Global, channels: &[Channel], node: u8) -> Result<Inside, Memory>
        requires { length channels.now ≤ 65536 }
        ensures { IfOk result (λ inside. inside ≡ opened_inside node 0 channels.now) }
    {
        let mut inside = Inside {
            channels: Vec::new(alloc),
        };
        for (chan, channel) in channels.iter().enumerate() {
            if channel.home == (Home::Inside { node }) {
                inside.open(alloc, chan as u16)?;
            }
        }
        Ok(inside)
    }

    // One channel more, with nothing on it.
    fn open(&mut self, alloc: Global, chan: u16) -> Result<(), Memory>
        requires { All (λ x. x.chan < chan) self.old }
        ensures ok { OnOk result (self.new ≡ self.old ++ opened_internal chan ∷ []) }
    {
        let channel = Internal {
            chan,
            messages: MessageLog::new(alloc),
            stopped: false,
        };
        self.channels.push(channel)?;
        Ok(())
    }

    /// Whether the node has the channel inside it, and it is not stopped.
    pub(crate) fn is_open(&self, chan: u16) -> bool
        ensures { IsTrue result ↔ IsOpen self.now chan }
    {
        match self.place(chan) {
            Some(at) => !self.channels[at].stopped,
            None => false,
        }
    }

    /// Whether the node has the channel inside it.
    pub(crate) fn has(&self, chan: u16) -> bool
        ensures { IsTrue result ↔ IsSome (named (λ x. x.chan) chan self.now) }
    {
        self.place(chan).is_some()
    }

    /// A message is offered, taken and finished at once.
    pub(crate) fn exchange(&mut self, chan: u16, message: &[u8]) -> Result<(), Memory>
        requires { IsOpen self.old chan }
        ensures ok { OnOk result
            (views_of self.new ≡ exchanged_on (views_of self.old) chan message.now) }
        ensures err { OnErr result (self.new ≡ self.old) }
        ensures names { (c : ℕ) →
            IsSome (named (λ x. x.chan) c self.new) ↔ IsSome (named (λ x. x.chan) c self.old) }
    {
        match self.place(chan) {
            Some(at) => self.channels[at].messages.push(message),
            None => unreachable!(),
        }
    }

    /// A channel is stopped.
    pub(crate) fn stop(&mut self, chan: u16)
        requires { IsSome (named (λ x. x.chan) chan self.old) }
        ensures stops { views_of self.new ≡ stopped_on (views_of self.old) chan }
        ensures names { (c : ℕ) →
            IsSome (named (λ x. x.chan) c self.new) ↔ IsSome (named (λ x. x.chan) c self.old) }
    {
        match self.place(chan) {
            Some(at) => self.channels[at].stopped = true,
            None => unreachable!(),
        }
    }

    /// The messages that went over a channel, the first one first; none where the node does not have it.
    pub(crate) fn messages(&self, chan: u16) -> Messages<'_>
        ensures { listed result ≡ (views_of self.now chan).taken }
    {
        match self.place(chan) {
            Some(at) => Messages::of(&self.channels[at].messages),
            None => Messages::none(),
        }
    }

    /// Whether a channel was stopped.
    pub(crate) fn is_stopped(&self, chan: u16) -> bool
        ensures { result ≡ (views_of self.now chan).stopped }
    {
        match self.place(chan) {
            Some(at) => self.channels[at].stopped,
            None => false,
        }
    }

    // The place of a channel.
    fn place(&self, chan: u16) -> Option<usize>
        ensures found { MatchOption result (named (λ x. x.chan) chan self.now ≡ None)
            (λ i. slice_get self.now i ≡ named (λ x. x.chan) chan self.now) }
        ensures within { IfSome result (λ i. i < length self.now) }
    {
        for (i, channel) in self.channels.iter().enumerate() {
            if channel.chan == chan {
                return Some(i);
            }
        }
        None
    }
}
