//! A cycle of dependencies along which packets of a network might wait for one another.
ghost use Rattle.std.specs.Prelude.{◌≡◌, ◌++◌, IfOk, OnOk};
ghost use Rattle.vc_text.specs.Deadlock.{TellsDeadlock, cycle_text as text_of_cycle, next_port, ports_text};
ghost use Rattle.vc_text.specs.Streams.{Writes};

use crate::check::read_accepted;
use crate::fault::RunFault;
use crate::streams::write_text;
use std::alloc::Global;
use std::io::{Read, Write};
use vc_cycles::find_cycle;
use vc_packets::Memory;
use vc_plan::{Plan, Port};
use vc_waits::push_port;

/// A port after a space.
fn push_next(out: &mut Vec<u8>, plan: &Plan, port: Port) -> Result<(), Memory>
    ensures { OnOk result (out.new.items ≡ out.old.items ++ next_port plan.now port) }
{
    out.extend_from_slice(b" ")?;
    push_port(out, plan, port)
}

fn push_ports(out: &mut Vec<u8>, plan: &Plan, ports: &[Port]) -> Result<(), Memory>
    ensures { OnOk result (out.new.items ≡ out.old.items ++ ports_text plan.now ports.now) }
{
    for port in ports {
        push_next(out, plan, *port)?;
    }
    Ok(())
}

/// The line of a network with this cycle. It fails only when out of memory.
pub fn cycle_text(alloc: Global, plan: &Plan, ports: &[Port]) -> Result<Vec<u8>, Memory>
    ensures { IfOk result (λ text. text.items ≡ text_of_cycle plan.now ports.now) }
{
    let mut out = Vec::new(alloc);
    out.extend_from_slice(b"cycle")?;
    push_ports(&mut out, plan, ports)?;
    out.push(10)?;
    Ok(out)
}

fn write_cycle<W: Write>(
    alloc: Global,
    plan: &Plan,
    ports: &[Port],
    writer: &mut W,
) -> Result<(), RunFault>
    ensures { Writes (W.contents writer.old) (W.contents writer.new)
        (text_of_cycle plan.now ports.now) result }
{
    let text = cycle_text(alloc, plan, ports)?;
    write_text(writer, text.as_slice())
}

/// Reads a network file, and writes `free`, or `cycle` with the ports of a cycle of dependencies, for an accepted one. The answer is
/// whether it is free. A refusal is answered, and nothing is written for it.
pub fn run_deadlock<R: Read, W: Write>(
    alloc: Global,
    reader: &mut R,
    writer: &mut W,
) -> Result<bool, RunFault>
    ensures { TellsDeadlock (R.remaining reader.old)
        (W.contents writer.old) (W.contents writer.new) result }
{
    let accepted = read_accepted(alloc, reader)?;
    match find_cycle(alloc, &accepted)? {
        None => match write_text(writer, b"free\n") {
            Ok(()) => Ok(true),
            Err(fault) => Err(fault),
        },
        Some(ports) => match write_cycle(alloc, accepted.plan(), ports.as_slice(), writer) {
            Ok(()) => Ok(false),
            Err(fault) => Err(fault),
        },
    }
}
