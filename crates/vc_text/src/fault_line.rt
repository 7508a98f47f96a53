//! The line of a fault.
ghost use Rattle.std.specs.Prelude.{◌≡◌, ◌++◌, IfOk, OnOk};
ghost use Rattle.vc_text.specs.FaultLine.{fault_text as text_of_fault, thread_line};
ghost use Rattle.vc_text.specs.Streams.{Writes};

use crate::check_line::push_check_line;
use crate::fault::RunFault;
use crate::read_line::push_read_line;
use crate::streams::write_text;
use std::alloc::Global;
use std::io::Write;
use vc_label_text::cause_text;
use vc_packets::Memory;
use vc_plan::Refusal;
use vc_threads::ThreadFault;

// The line of a run in threads that gave no report.
fn push_thread_line(out: &mut Vec<u8>, why: ThreadFault) -> Result<(), Memory>
    ensures { OnOk result (out.new.items ≡ out.old.items ++ thread_line why) }
{
    match why {
        ThreadFault::Memory => out.extend_from_slice(b"fault memory")?,
        ThreadFault::Start | ThreadFault::Gate => out.extend_from_slice(b"fault thread")?,
    }
    Ok(())
}

/// The line of a fault, and nothing for a fault of the writer. It fails only when out of memory.
pub fn fault_text(alloc: Global, fault: &RunFault) -> Result<Vec<u8>, Memory>
    ensures { IfOk result (λ text. text.items ≡ text_of_fault fault.now) }
{
    let mut out = Vec::new(alloc);
    match fault {
        RunFault::Read => out.extend_from_slice(b"fault read\n")?,
        RunFault::Write => {}
        RunFault::Text(refused) => {
            push_read_line(&mut out, refused)?;
            out.push(10)?;
        }
        RunFault::Network(cause) => {
            out.extend_from_slice(cause_text(alloc, cause)?.as_slice())?;
        }
        RunFault::Plan(Refusal { plan, why }) => {
            push_check_line(&mut out, plan, why)?;
            out.push(10)?;
        }
        RunFault::Threads(why) => {
            push_thread_line(&mut out, *why)?;
            out.push(10)?;
        }
        RunFault::Memory => out.extend_from_slice(b"fault memory\n")?,
    }
    Ok(out)
}

/// Writes the line of a fault, and nothing for a fault of the writer. The text is made first, so want of memory writes nothing.
pub fn write_fault<W: Write>(
    alloc: Global,
    fault: &RunFault,
    writer: &mut W,
) -> Result<(), RunFault>
    ensures { Writes (W.contents writer.old) (W.contents writer.new) (text_of_fault fault.now)
        result }
{
    let text = fault_text(alloc, fault)?;
    write_text(writer, text.as_slice())
}
