//! The line of an event, in a buffer that is used again.
ghost use Rattle.std.specs.Prelude.{◌≡◌, IfOk, OnOk};
ghost use Rattle.std.specs.Str.{bytes_eq};
ghost use Rattle.vc_trace.specs.EventText.{event_line};

use crate::event_text::put_event;
use std::alloc::Global;
use vc_core::Event;
use vc_packets::Memory;
use vc_plan::Plan;
use vc_text::{Piece, WriteFailed, flush};

/// Room for the line of an event.
#[derive(Drop)]
pub(crate) struct LineBuffer {
    piece: Piece,
    line: Vec<u8>,
}

impl LineBuffer {
    /// A buffer that holds no line.
    pub(crate) fn new(alloc: Global) -> LineBuffer {
        LineBuffer {
            piece: Piece::new(),
            line: Vec::new(alloc),
        }
    }

    /// Whether a line is that of an event. It fails only when out of memory.
    pub(crate) fn is_line_of(
        &mut self,
        plan: &Plan,
        event: &Event,
        line: &[u8],
    ) -> Result<bool, Memory>
        ensures { IfOk result (λ is. is ≡ bytes_eq (event_line plan.now event.now) line.now) }
    {
        match self.write(plan, event) {
            Ok(()) => Ok(self.line.as_slice() == line),
            Err(WriteFailed) => Err(Memory),
        }
    }

    // The line of the event, in place of what the buffer held.
    fn write(&mut self, plan: &Plan, event: &Event) -> Result<(), WriteFailed>
        ensures { OnOk result (self.new.line.items ≡ event_line plan.now event.now) }
    {
        self.piece.clear();
        self.line.clear();
        put_event(&mut self.piece, &mut self.line, plan, event)?;
        flush(&mut self.piece, &mut self.line)
    }
}
