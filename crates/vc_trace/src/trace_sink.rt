//! What writes the events of a run as they happen.
ghost use Rattle.std.specs.Prelude.{◌≡◌, [], ◌++◌, false, true, IfErr, OnErr, OnOk};
ghost use Rattle.std.specs.Io.KnownBytes.{Appends};
ghost use Rattle.vc_text.specs.Streams.{AppendsFront};
ghost use Rattle.vc_text.specs.Tail.{tail_text};
ghost use Rattle.vc_text.specs.declared.fault.RunFault.TheVariants.{Write as WriterFailed};

use crate::event_text::put_event;
use std::io::Write;
use vc_core::{Event, Network};
use vc_packets::Memory;
use vc_plan::Plan;
use vc_text::{EventSink, Piece, RunFault, Tail, WriteFailed, flush};

/// A run that ended early. Its sink knows whether the writer has failed.
#[derive(Drop)]
pub(crate) struct Stopped;

impl From<Memory> for Stopped {
    fn from(_error: Memory) -> Stopped {
        Stopped
    }
}

/// Writes each event's line, through a buffer of 4,096 bytes. It keeps no event.
#[derive(Drop)]
pub(crate) struct TraceSink<'out, 'plan, W> {
    writer: &'out mut W,
    plan: &'plan Plan,
    piece: Piece,
    has_failed: bool,
}

impl<'out, 'plan, W: Write> TraceSink<'out, 'plan, W> {
    ghost use Rattle.vc_trace.specs.Private.TraceSink.{EndsEarly};

    /// A sink of a plan's events, before the first.
    pub(crate) fn new(writer: &'out mut W, plan: &'plan Plan) -> TraceSink<'out, 'plan, W>
        ensures same_writer { result.writer.ghost_name ≡ writer.entry.ghost_name }
        ensures writer { result.writer.now ≡ writer.old }
        ensures plan { result.plan.now ≡ plan.now }
        ensures empty { result.piece.items ≡ [] }
        ensures works { result.has_failed ≡ false }
    {
        TraceSink {
            writer,
            plan,
            piece: Piece::new(),
            has_failed: false,
        }
    }

    /// Ends the text of a run that ended early, and answers why it did. The writer gets what the buffer holds, unless it has failed.
    pub(crate) fn stop(self) -> RunFault
        ensures works { self.entry.has_failed ≡ false → EndsEarly
            (W.contents self.entry.writer.now) (W.contents self.exit.0.now)
            self.entry.piece.items result }
        ensures fails { self.entry.has_failed ≡ true → result ≡ WriterFailed }
        ensures same { self.entry.has_failed ≡ true →
            self.exit.0.now ≡ self.entry.writer.now }
    {
        let TraceSink {
            writer,
            plan: _,
            mut piece,
            has_failed,
        } = self;
        if has_failed {
            return RunFault::Write;
        }
        match flush(&mut piece, writer) {
            Ok(()) => RunFault::Memory,
            Err(WriteFailed) => RunFault::Write,
        }
    }

    /// Ends the text of a whole run: the traffic follows the events.
    pub(crate) fn end(self, tail: &Tail<'_>) -> Result<(), RunFault>
        ensures ok { OnOk result
            (Appends (W.contents self.entry.writer.now) (W.contents self.exit.0.now)
            (self.entry.piece.items ++ tail_text tail.now)) }
        ensures err { OnErr result
            (AppendsFront (W.contents self.entry.writer.now) (W.contents self.exit.0.now)
            (self.entry.piece.items ++ tail_text tail.now)) }
        ensures fault { IfErr result (λ fault. fault ≡ WriterFailed) }
    {
        let TraceSink {
            writer,
            plan: _,
            mut piece,
            has_failed: _,
        } = self;
        match tail.put_last(&mut piece, writer) {
            Ok(()) => Ok(()),
            Err(WriteFailed) => Err(RunFault::Write),
        }
    }
}

impl<W: Write> EventSink for TraceSink<'_, '_, W> {
    ghost use Rattle.vc_trace.specs.Private.TraceSink.{HasFailed, HasPassed};

    type Fault = Stopped;

    ghost holds = { λ from now p es _. HasPassed W.contents from now p es };

    ghost left = { HasFailed W.contents };

    fn keeps_none(&self) -> bool {
        false
    }

    fn record(&mut self, _network: &Network, event: Event) -> Result<(), Stopped> {
        match put_event(&mut self.piece, self.writer, self.plan, &event) {
            Ok(()) => Ok(()),
            Err(WriteFailed) => {
                self.has_failed = true;
                Err(Stopped)
            }
        }
    }
}
