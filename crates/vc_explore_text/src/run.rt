//! Explorations from a reader to a writer.
ghost use Rattle.std.specs.Prelude.{◌≡◌, ◌<◌, IfOk, option_map};
ghost use Rattle.vc_explore_text.specs.Exploration.{TellsExplored, finding_of as finding_for, text_in};
ghost use Rattle.vc_text.specs.Streams.{Writes};

use crate::finding::Finding;
use crate::json::explored_json;
use crate::lines::explored_text;
use std::alloc::Global;
use std::io::{Read, Write};
use vc_cycles::find_cycle;
use vc_explore::{Explored, Verdict, Watch, explore};
use vc_packets::Memory;
use vc_plan::{Plan, Port};
use vc_stats::Form;
use vc_text::{Meter, RunFault, read_accepted, write_text};

/// A meter that shows how many states were looked at.
#[derive(Drop)]
struct Metered<'a> {
    meter: &'a Meter,
}

impl Watch for Metered<'_> {
    fn looked(&self, states: usize) {
        self.meter.set(states as u64);
    }
}

/// What is known of a network's runs.
fn finding_of(verdict: &Verdict, cycle: Option<&[Port]>) -> Finding
    ensures { result ≡ finding_for verdict.now (option_map (λ ports. ports.now) cycle.entry) }
{
    match (verdict, cycle) {
        (Verdict::Stuck { .. }, _) | (_, Some(_)) => Finding::MayStop,
        (Verdict::NeverStuck { .. }, None) => Finding::Free,
        (Verdict::NotStuckWithin { .. }, None) => Finding::Open,
    }
}

/// The ports of a cycle, if there is one.
fn ports_of(found: &Option<Vec<Port>>) -> Option<&[Port]>
    ensures { option_map (λ ports. ports.now) result ≡
        option_map (λ ports. ports.items) found.now }
{
    match found {
        Some(ports) => Some(ports.as_slice()),
        None => None,
    }
}

/// The text of what was found.
fn text_of(
    alloc: Global,
    plan: &Plan,
    explored: &Explored,
    cycle: Option<&[Port]>,
    form: Form,
) -> Result<Vec<u8>, Memory>
    ensures { IfOk result (λ text. text.items ≡
        text_in form plan.now explored.now (option_map (λ ports. ports.now) cycle.entry)) }
{
    match form {
        Form::Lines => explored_text(alloc, plan, explored, cycle),
        Form::Json => explored_json(alloc, plan, explored, cycle),
    }
}

fn write_explored<W: Write>(
    alloc: Global,
    plan: &Plan,
    explored: &Explored,
    cycle: Option<&[Port]>,
    writer: &mut W,
    form: Form,
) -> Result<(), RunFault>
    ensures { Writes (W.contents writer.old) (W.contents writer.new)
        (text_in form plan.now explored.now (option_map (λ ports. ports.now) cycle.entry)) result }
{
    let text = text_of(alloc, plan, explored, cycle, form)?;
    write_text(writer, text.as_slice())?;
    Ok(())
}

/// Reads a network file, explores the schedules of an accepted network's program, and writes what was found: whether a schedule gets the
/// program stuck, and a shortest one that does, whether packets might wait for one another in a circle, and how many states were kept. At
/// most `most` states are looked at, and the meter notes how many have been. The answer is what is known of the network's runs.
///
/// # Errors
///
/// The call fails if the network is refused, if a stream fails, or when out of memory. Nothing is written then, unless the writer fails,
/// which has got a prefix of the text.
pub fn run_explore<R: Read, W: Write>(
    alloc: Global,
    reader: &mut R,
    writer: &mut W,
    most: usize,
    form: Form,
    meter: &Meter,
) -> Result<Finding, RunFault>
    requires { 0 < most }
    ensures { TellsExplored form (R.remaining reader.old)
        (W.contents writer.old) (W.contents writer.new) result }
{
    let accepted = read_accepted(alloc, reader)?;
    let metered = Metered { meter };
    let explored = explore(alloc, &accepted, most, &metered)?;
    let found = find_cycle(alloc, &accepted)?;
    let cycle = ports_of(&found);
    match write_explored(alloc, accepted.plan(), &explored, cycle, writer, form) {
        Ok(()) => Ok(finding_of(&explored.verdict, cycle)),
        Err(fault) => Err(fault),
    }
}
