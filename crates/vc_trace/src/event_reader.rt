//! Reading events from their lines.
ghost use Rattle.std.specs.Prelude.{IfOk};
ghost use Rattle.vc_plan.specs.Accepted.{IsAccepted};
ghost use Rattle.vc_plan.specs.declared.plan.Plan.{Plan};
ghost use Rattle.vc_trace.specs.Private.EventReader.{IsReaderOf, ReadsEvent};

use crate::event_line::event_of;
use crate::line_buffer::LineBuffer;
use crate::names::Names;
use std::alloc::Global;
use vc_core::Event;
use vc_packets::Memory;
use vc_plan::Plan;

/// Reads events of a plan from their lines.
#[derive(Drop)]
pub(crate) struct EventReader<'a> {
    plan: &'a Plan,
    names: Names<'a>,
    buffer: LineBuffer,
}

impl<'a> EventReader<'a> {
    /// The reader of a plan's events. It fails only when out of memory.
    pub(crate) fn new(alloc: Global, plan: &'a Plan) -> Result<EventReader<'a>, Memory>
        requires { IsAccepted plan.now }
        ensures { IfOk result (IsReaderOf plan.now) }
    {
        Ok(EventReader {
            plan,
            names: Names::new(alloc, plan)?,
            buffer: LineBuffer::new(alloc),
        })
    }

    /// The event whose line this is, if it is that of one. It fails only when out of memory.
    pub(crate) fn read(&mut self, line: &[u8]) -> Result<Option<Event>, Memory>
        ensures same { (p : Plan) → IsReaderOf p self.old → IsReaderOf p self.new }
        ensures reads { (p : Plan) → IsReaderOf p self.old →
            IfOk result (ReadsEvent p line.now) }
    {
        let Some(event) = event_of(&self.names, line) else {
            return Ok(None);
        };
        if self.buffer.is_line_of(self.plan, &event, line)? {
            Ok(Some(event))
        } else {
            Ok(None)
        }
    }
}
