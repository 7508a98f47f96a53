//! Writing the events of a run and its traffic.
ghost use Rattle.std.specs.Prelude.{◌++◌, OnOk, OnErr};
ghost use Rattle.std.specs.Io.KnownBytes.{Appends};
ghost use Rattle.vc_text.specs.Pieces.{Passes};
ghost use Rattle.vc_text.specs.Streams.{AppendsFront, Writes};
ghost use Rattle.vc_text.specs.Tail.{tail_text};
ghost use Rattle.vc_trace.specs.EventText.{events_text};

use crate::event_text::put_event;
use std::io::Write;
use vc_core::Event;
use vc_plan::Plan;
use vc_text::{Piece, RunFault, Tail, WriteFailed};

// The lines of these events.
fn put_steps<W: Write>(
    piece: &mut Piece,
    writer: &mut W,
    plan: &Plan,
    steps: &[Event],
) -> Result<(), WriteFailed>
    ensures ok { OnOk result (Passes (W.contents writer.old) piece.old.items
        (W.contents writer.new) piece.new.items (events_text plan.now steps.now)) }
    ensures err { OnErr result (AppendsFront (W.contents writer.old)
        (W.contents writer.new) (piece.old.items ++ (events_text plan.now steps.now))) }
{
    for event in steps {
        put_event(piece, writer, plan, event)?;
    }
    Ok(())
}

// The lines of these events, and then the traffic.
fn pass_steps<W: Write>(
    writer: &mut W,
    plan: &Plan,
    steps: &[Event],
    tail: &Tail<'_>,
) -> Result<(), WriteFailed>
    ensures ok { OnOk result (Appends (W.contents writer.old) (W.contents writer.new)
        (events_text plan.now steps.now ++ tail_text tail.now)) }
    ensures err { OnErr result (AppendsFront (W.contents writer.old) (W.contents writer.new)
        (events_text plan.now steps.now ++ tail_text tail.now)) }
{
    let mut piece = Piece::new();
    put_steps(&mut piece, writer, plan, steps)?;
    tail.put_last(&mut piece, writer)
}

/// Writes the lines of these events, and then the traffic.
pub(crate) fn write_steps<W: Write>(
    writer: &mut W,
    plan: &Plan,
    steps: &[Event],
    tail: &Tail<'_>,
) -> Result<(), RunFault>
    ensures { Writes (W.contents writer.old) (W.contents writer.new)
        (events_text plan.now steps.now ++ tail_text tail.now) result }
{
    match pass_steps(writer, plan, steps, tail) {
        Ok(()) => Ok(()),
        Err(WriteFailed) => Err(RunFault::Write),
    }
}
