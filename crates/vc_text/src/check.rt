//! Checking a network file.
ghost use Rattle.std.specs.Prelude.{◌≡◌, IfOk};
ghost use Rattle.vc_text.specs.Streams.{Writes};
ghost use Rattle.vc_text.specs.CheckText.{ReadsAccepted, ReadsText, Checks, accepted_text as text_of_accepted};
ghost use Rattle.vc_text.specs.Private.CheckText.{AcceptsPlan};

use crate::fault::RunFault;
use crate::network_file::{NetworkFile, read_file};
use crate::streams::{read_all, write_text};
use std::alloc::Global;
use std::io::{Read, Write};
use vc_packets::Memory;
use vc_plan::{Accepted, Plan, check};
use vc_waits::push_number;

/// The network of a whole file's plan, if `check` accepts it.
fn accept(alloc: Global, plan: Plan) -> Result<Accepted, RunFault>
    ensures { AcceptsPlan plan result }
{
    match check(alloc, plan) {
        Ok(accepted) => Ok(accepted),
        Err(refusal) => Err(RunFault::Plan(refusal)),
    }
}

/// The network of a network file, if `check` accepts it. The short form of a file is labelled first. The call fails if the text or its
/// plan is refused, if the network can't be labelled, or when out of memory.
#[tactic(auto, using(crate::proofs::Forms::accepts_whole, crate::proofs::Forms::reads_none))]
fn accept_text(alloc: Global, text: &[u8]) -> Result<Accepted, RunFault>
    ensures { ReadsText text.now result }
{
    match read_file(alloc, text) {
        Ok(NetworkFile::Whole(plan)) => accept(alloc, plan),
        Ok(NetworkFile::Short(network)) => Ok(network),
        Err(fault) => Err(fault),
    }
}

/// The network of the network file that the reader has, if `check` accepts it. The short form of a file is labelled first. The call fails
/// if the reader fails, if the text or its plan is refused, if the network can't be labelled, or when out of memory.
#[tactic(auto, using(crate::proofs::Forms::reads_all))]
pub fn read_accepted<R: Read>(alloc: Global, reader: &mut R) -> Result<Accepted, RunFault>
    ensures { ReadsAccepted (R.remaining reader.old) result }
{
    let text = read_all(alloc, reader)?;
    accept_text(alloc, text.as_slice())
}

/// The line of an accepted network: how many nodes, switches, virtual links and channels it has. It fails only when out of memory.
#[tactic(auto, using(std::proofs::Common::append_assoc), unfolding(crate::specs::CheckText::accepted_text))]
pub fn accepted_text(alloc: Global, plan: &Plan) -> Result<Vec<u8>, Memory>
    ensures { IfOk result (λ text. text.items ≡ text_of_accepted plan.now) }
{
    let mut out = Vec::new(alloc);
    out.extend_from_slice(b"accepted nodes ")?;
    push_number(&mut out, plan.nodes.len() as u64)?;
    out.extend_from_slice(b" switches ")?;
    push_number(&mut out, plan.switches.len() as u64)?;
    out.extend_from_slice(b" vlinks ")?;
    push_number(&mut out, plan.vlinks.len() as u64)?;
    out.extend_from_slice(b" channels ")?;
    push_number(&mut out, plan.channels.len() as u64)?;
    out.push(10)?;
    Ok(out)
}

fn write_accepted<W: Write>(alloc: Global, plan: &Plan, writer: &mut W) -> Result<(), RunFault>
    ensures { Writes (W.contents writer.old) (W.contents writer.new) (text_of_accepted plan.now)
        result }
{
    let text = accepted_text(alloc, plan)?;
    write_text(writer, text.as_slice())
}

/// Reads a network file, and writes the line of an accepted one. A refusal is answered, and nothing is written for it.
pub fn run_check<R: Read, W: Write>(
    alloc: Global,
    reader: &mut R,
    writer: &mut W,
) -> Result<(), RunFault>
    ensures { Checks (R.remaining reader.old) (W.contents writer.old) (W.contents writer.new)
        result }
{
    let accepted = read_accepted(alloc, reader)?;
    write_accepted(alloc, accepted.plan(), writer)
}
