//! The traffic of a run, followed by who waits for what if that is asked for.
ghost use Rattle.std.specs.Prelude.{List, IfOk, OnErr, OnOk, ◌++◌};
ghost use Rattle.std.specs.Io.KnownBytes.{Appends};
ghost use Rattle.vc_core.specs.Replay.{Reached};
ghost use Rattle.vc_core.specs.State.{shown, state_of};
ghost use Rattle.vc_core.specs.declared.event.Event.{Event};
ghost use Rattle.vc_text.specs.Private.Streams.{WritesOne};
ghost use Rattle.vc_text.specs.Streams.{AppendsFront, Writes};
ghost use Rattle.vc_text.specs.Tail.{IsTail, tail_text};
ghost use Rattle.vc_text.specs.Views.{AreViews};

use crate::fault::RunFault;
use crate::pieces::{Piece, WriteFailed, put_last};
use crate::run::views;
use crate::traffic::{ChannelView, put_traffic};
use std::alloc::Global;
use std::io::Write;
use vc_core::{Close, Network};
use vc_packets::Memory;
use vc_plan::Plan;
use vc_waits::push_waits;

/// The traffic of a run, and the lines after it. It shows the messages where the network keeps them, so it takes memory only for the
/// channels and for these lines.
#[derive(Drop)]
pub struct Tail<'a> {
    /// What the channels are and have done, in order.
    pub views: Vec<ChannelView<'a>>,
    /// How the run ended.
    pub close: Close,
    /// The lines after the traffic.
    pub after: Vec<u8>,
}

impl<'a> Tail<'a> {
    /// The traffic of a network, followed, if `is_why`, by who waits for what: a line for each part of a process that does not go on by
    /// itself, and one for each packet of an output that is not finished. It fails only when out of memory.
    #[tactic(auto, using(crate::proofs::Texts::nothing_behind))]
    pub fn new(
        alloc: Global,
        plan: &Plan,
        network: &'a Network,
        close: Close,
        is_why: bool,
    ) -> Result<Tail<'a>, Memory>
        requires { (events : List Event) × Reached plan.now events (state_of network.now) }
        ensures views { IfOk result (λ tail.
            AreViews plan.now (shown (state_of network.now)) tail.views.items) }
        ensures text { (events : List Event) → IfOk result (λ tail.
            IsTail is_why plan.now events (shown (state_of network.now)) close (tail_text tail)) }
    {
        let views = views(alloc, network)?;
        let mut after = Vec::new(alloc);
        if is_why {
            push_waits(alloc, &mut after, plan, network)?;
        }
        Ok(Tail {
            views,
            close,
            after,
        })
    }

    /// Adds it to what the buffer holds, and gives the writer all of that. If the writer fails, it has got a prefix of what the buffer held
    /// and of this text.
    pub fn put_last<W: Write>(&self, piece: &mut Piece, writer: &mut W) -> Result<(), WriteFailed>
        ensures ok { OnOk result (Appends (W.contents writer.old) (W.contents writer.new)
            (piece.old.items ++ tail_text self.now)) }
        ensures err { OnErr result (AppendsFront (W.contents writer.old) (W.contents writer.new)
            (piece.old.items ++ tail_text self.now)) }
    {
        put_traffic(piece, writer, self.views.as_slice(), self.close)?;
        put_last(piece, writer, self.after.as_slice())
    }

    /// Writes it, through a buffer of 4,096 bytes: it takes no memory. If the writer fails, it has got a prefix of the text.
    pub fn write<W: Write>(&self, writer: &mut W) -> Result<(), RunFault>
        ensures { Writes (W.contents writer.old) (W.contents writer.new)
            (tail_text self.now) result }
    {
        match self.put_last(&mut Piece::new(), writer) {
            Ok(()) => Ok(()),
            Err(WriteFailed) => Err(RunFault::Write),
        }
    }
}

/// Writes them. All memory is taken first, so running out of it writes nothing.
pub(crate) fn write_tail<W: Write>(
    alloc: Global,
    plan: &Plan,
    network: &Network,
    close: Close,
    is_why: bool,
    writer: &mut W,
) -> Result<(), RunFault>
    requires { (events : List Event) × Reached plan.now events (state_of network.now) }
    ensures { (events : List Event) →
        WritesOne (IsTail is_why plan.now events (shown (state_of network.now)) close)
        (W.contents writer.old) (W.contents writer.new) result }
{
    let tail = Tail::new(alloc, plan, network, close, is_why)?;
    tail.write(writer)
}
