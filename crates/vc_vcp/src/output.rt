//! Channels that a node outputs on: the sending half of a virtual link, with its log of what was offered.
//!
//! A call queues and logs first and changes the half last, so that where it finds no memory the output and the queue are as
//! they were.
ghost use Rattle.std.specs.Prelude.{◌≡◌, ◌≢◌, ℕ, List, [], ◌∷◌, ◌++◌, IfOk, IfErr, OnOk, OnErr};
ghost use Rattle.vc_blocks.specs.Acknowledges.{later_than, advanced};
ghost use Rattle.vc_packets.specs.Pieces.{Pieces};
ghost use Rattle.vc_packets.specs.Spellings.{piece_packet};
ghost use Rattle.vc_vcp.specs.Private.Queues.{Begins, StaysOutput, queued, queued_next};
ghost use Rattle.vc_vcp.specs.VcpView.{finished_of};
ghost use Rattle.vc_vcp.specs.State.{IsOutput};

use crate::link_out::LinkOut;
use std::alloc::{AllocFailed, Global};
use vc_blocks::{Advance, MessageLog, OutHalf};
use vc_packets::{Bytes, Memory, piece};

/// A channel that the node outputs on: the end of its virtual link, the half, and the messages offered.
#[derive(Drop)]
pub(crate) struct Output {
    pub(crate) chan: u16,
    pub(crate) link: u8,
    pub(crate) block: u16,
    pub(crate) half: OutHalf,
    pub(crate) offered: MessageLog,
}

impl Output {
    /// An output begins: the message is logged, and its first piece queued. Where there is no memory, the message comes back.
    pub(crate) fn offer(
        &mut self,
        queue: &mut LinkOut,
        alloc: Global,
        message: Bytes,
    ) -> Result<(), AllocFailed<Bytes>>
        requires { self.old.half.unacked ≡ [] }
        ensures sender { queue.new.sender ≡ queue.old.sender }
        ensures stays { StaysOutput self.old self.new }
        ensures is { IsOutput self.old → IsOutput self.new }
        ensures ok { OnOk result (Begins self.old queue.old message self.new queue.new) }
        ensures back { IfErr result (λ failed. failed.value ≡ message) }
        ensures err { OnErr result (self.new ≡ self.old) }
        ensures err_queue { OnErr result (queue.new ≡ queue.old) }
    {
        if self.prepare(queue, alloc, message.as_slice()).is_err() {
            return Err(AllocFailed { value: message });
        }
        self.half.offer(message);
        Ok(())
    }

    /// The piece under way was acknowledged: the next one is queued, or the output is finished.
    pub(crate) fn acked(&mut self, queue: &mut LinkOut, alloc: Global) -> Result<Advance, Memory>
        requires { self.old.half.unacked ≢ [] }
        ensures sender { queue.new.sender ≡ queue.old.sender }
        ensures stays { StaysOutput self.old self.new }
        ensures is { IsOutput self.old → IsOutput self.new }
        ensures advance { IfOk result
            (λ advance. advance ≡ advanced (later_than self.old.half.unacked)) }
        ensures output { OnOk result
            (self.new ≡
            record self.old {
              half = record self.old.half
                  { unacked = later_than self.old.half.unacked };
            }) }
        ensures queue { OnOk result
            (queue.new ≡
            queued_next queue.old self.old.half.route (later_than self.old.half.unacked)) }
        ensures err { OnErr result (self.new ≡ self.old) }
        ensures err_queue { OnErr result (queue.new ≡ queue.old) }
    {
        if !self.half.is_last() {
            let next = self.half.next_packet(alloc)?;
            queue.enqueue(next)?;
        }
        Ok(self.half.acked())
    }

    /// How many outputs are finished: all that were offered but the one under way.
    pub(crate) fn finished(&self) -> u64
        ensures { result ≡ finished_of self.now.half.unacked self.now.offered }
    {
        let offered = self.offered.len() as u64;
        if self.half.is_idle() {
            offered
        } else {
            offered.saturating_sub(1)
        }
    }

    // A message's first piece is queued, and the message logged.
    fn prepare(&mut self, queue: &mut LinkOut, alloc: Global, message: &[u8]) -> Result<(), Memory>
        ensures output { OnOk result
            (self.new ≡ record self.old { offered = self.old.offered ++ message.now ∷ [] }) }
        ensures queue { OnOk result
            ((cs : List (List ℕ)) →
            Pieces message.now cs →
            queue.new ≡ queued queue.old (piece_packet self.old.half.route cs)) }
        ensures err { OnErr result (self.new ≡ self.old) }
        ensures err_queue { OnErr result (queue.new ≡ queue.old) }
    {
        let first = piece(alloc, self.half.route(), message, 0)?;
        queue.enqueue(first)?;
        if self.offered.push(message).is_err() {
            queue.unqueue();
            return Err(Memory);
        }
        Ok(())
    }
}
