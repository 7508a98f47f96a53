//! Making the events of a text.
ghost use Rattle.std.specs.Prelude.{◌≡◌, ◌↔◌, ℕ, List, Option, IfErr, IfOk, IsTrue};
ghost use Rattle.vc_core.specs.Replay.{IsOpening, Reached};
ghost use Rattle.vc_core.specs.State.{state_of, IsNetworkOf};
ghost use Rattle.vc_core.specs.declared.event.Event.{Event as Happening};
ghost use Rattle.vc_plan.specs.declared.plan.Plan.{Plan};
ghost use Rattle.vc_text.specs.Streams.{IsReadFault, Writes};
ghost use Rattle.vc_trace.specs.Private.EventReader.{IsReaderOf};
ghost use Rattle.vc_trace.specs.Replay.{EndsEvents, Replays, ReplaysPlan, refused_text as text_of_refused};
ghost use Rattle.vc_trace.specs.Private.Replay.{MakesEvents, MakesLine};

use crate::escape::push_line;
use crate::event_reader::EventReader;
use crate::line::{Line, read_line};
use crate::named_files::{NamedFile, NamedFiles};
use crate::refused_line::RefusedLine;
use crate::replayed::Replayed;
use std::alloc::Global;
use std::io::{BufReader, Read, Write};
use vc_core::{Network, StepRefused};
use vc_packets::Memory;
use vc_plan::{Accepted, Plan};
use vc_text::{Meter, RunFault, Tail, close_of, push_number, read_accepted, write_text};

/// It is noted how far a replay is after so many lines.
const STRETCH: u64 = 1024;

/// Makes the event of a line. The answer is whether it can happen; else the network is as it was.
fn make_line(
    reader: &mut EventReader<'_>,
    network: &mut Network,
    line: &[u8],
) -> Result<bool, Memory>
    ensures same { (p : Plan) → IsReaderOf p reader.old → IsReaderOf p reader.new }
    ensures made { (p : Plan) →
        IsReaderOf p reader.old → IsNetworkOf p (state_of network.old) →
        IfOk result (MakesLine p (state_of network.old) line.now (state_of network.new)) }
{
    let Some(event) = reader.read(line)? else {
        return Ok(false);
    };
    match network.step(&event) {
        Ok(()) => Ok(true),
        Err(StepRefused::NotEnabled) => Ok(false),
        Err(StepRefused::Memory) => Err(Memory),
    }
}

/// Whether the events end in front of a line: nothing is left of the text, or its traffic begins.
fn ends_events(line: &[u8]) -> bool
    ensures { IsTrue result ↔ EndsEvents line.now }
{
    line.is_empty()
        || line.starts_with(b"channel ".as_slice())
        || line.starts_with(b"end ".as_slice())
}

/// Makes the events of the text's lines in front of its traffic. The answer is the first of these lines that is not that of an event
/// that can happen.
fn make_lines<E: Read>(
    alloc: Global,
    plan: &Plan,
    network: &mut Network,
    events: &mut E,
    meter: &Meter,
) -> Result<Option<RefusedLine>, RunFault>
    requires { IsOpening plan.now (state_of network.old) }
    ensures made { IfOk result
        (MakesEvents (E.remaining events.old) plan.now (state_of network.new)) }
    ensures fault { IfErr result IsReadFault }
{
    let mut reader = EventReader::new(alloc, plan)?;
    let mut line = Line::new();
    for number in 1..u64::MAX {
        read_line(events, &mut line)?;
        if ends_events(line.as_slice()) {
            return Ok(None);
        }
        if !make_line(&mut reader, network, line.as_slice())? {
            return Ok(Some(RefusedLine { number, line }));
        }
        if number % STRETCH == 0 {
            meter.set(number);
        }
    }
    // a reader that has not ended yet is taken to have no end
    Err(RunFault::Read)
}

/// Does the same, and asks the reader for 8,192 bytes at a time.
fn make_events<E: Read>(
    alloc: Global,
    plan: &Plan,
    network: &mut Network,
    events: &mut E,
    meter: &Meter,
) -> Result<Option<RefusedLine>, RunFault>
    requires { IsOpening plan.now (state_of network.old) }
    ensures made { IfOk result
        (MakesEvents (E.remaining events.old) plan.now (state_of network.new)) }
    ensures fault { IfErr result IsReadFault }
{
    let Ok(mut events) = BufReader::new(alloc, events) else {
        return Err(RunFault::Memory);
    };
    make_lines(alloc, plan, network, &mut events, meter)
}

/// The text of a line that is refused. It fails only when out of memory.
fn refused_text(alloc: Global, refused: &RefusedLine) -> Result<Vec<u8>, Memory>
    ensures { IfOk result (λ text.
        text.items ≡ text_of_refused refused.now.number refused.now.line.items) }
{
    let mut text = Vec::new(alloc);
    text.extend_from_slice(b"refused event ")?;
    push_number(&mut text, refused.number)?;
    text.push(b'\n')?;
    push_line(&mut text, refused.line.as_slice())?;
    Ok(text)
}

/// Writes the line that was refused. Its text is made first, so running out of memory writes nothing.
fn write_refused<W: Write>(
    alloc: Global,
    refused: &RefusedLine,
    writer: &mut W,
) -> Result<(), RunFault>
    ensures { Writes (W.contents writer.old) (W.contents writer.new)
        (text_of_refused refused.now.number refused.now.line.items) result }
{
    let text = refused_text(alloc, refused)?;
    write_text(writer, text.as_slice())
}

/// Writes what a replay came to: the line that was refused, or the traffic of the network where all events were made.
fn write_answer<W: Write>(
    alloc: Global,
    plan: &Plan,
    network: &mut Network,
    refused: Option<RefusedLine>,
    is_why: bool,
    writer: &mut W,
) -> Result<Replayed, RunFault>
    requires { (events : List Happening) × Reached plan.now events (state_of network.old) }
    ensures { (known : Option (List ℕ)) →
        MakesEvents known plan.now (state_of network.old) refused →
        ReplaysPlan is_why known plan.now
        (W.contents writer.old) (W.contents writer.new) result }
{
    if let Some(refused) = refused {
        write_refused(alloc, &refused, writer)?;
        return Ok(Replayed::Refused);
    }
    let close = close_of(network)?;
    let tail = Tail::new(alloc, plan, network, close, is_why)?;
    tail.write(writer)?;
    Ok(Replayed::Ended(close))
}

/// Makes events of an accepted network, and writes what that came to.
fn replay_plan<E: Read, W: Write>(
    alloc: Global,
    accepted: &Accepted,
    events: &mut E,
    writer: &mut W,
    is_why: bool,
    meter: &Meter,
) -> Result<Replayed, RunFault>
    ensures { ReplaysPlan is_why (E.remaining events.old) accepted.now
        (W.contents writer.old) (W.contents writer.new) result }
{
    let plan = accepted.plan();
    let mut network = Network::new(alloc, accepted)?;
    let refused = make_events(alloc, plan, &mut network, events, meter)?;
    write_answer(alloc, plan, &mut network, refused, is_why, writer)
}

/// Reads a network file, opens a file of events, makes the events from the network's opening state on, and writes the traffic of the
/// state that they lead to. If `is_why`, who waits for what follows the traffic.
///
/// The events are the lines of the file before the first line that begins with `channel ` or `end `, each as
/// [`trace_step`](crate::trace_step) writes it. The file is read through a buffer, so it takes no memory of its own.
///
/// A line is refused if it is not that of an event that can happen then. Its number, from 1, and the line are written in place of the
/// traffic. Each of its bytes that is no printable character of ASCII, and each backslash, is written as `\x` and two digits. A line of
/// more than 256 bytes is refused with the first 256.
///
/// The network is read first. If the file of events can't be opened, the answer says so, and nothing is written.
///
/// # Errors
///
/// The call fails if a reader or the writer fails, if the network is refused, and when out of memory. Nothing is written then, but by a
/// writer that fails, which has got a prefix of the text.
pub fn run_replay<R: Read, F: NamedFiles, W: Write>(
    alloc: Global,
    reader: &mut R,
    file: NamedFile<'_, F>,
    writer: &mut W,
    is_why: bool,
    meter: &Meter,
) -> Result<Replayed, RunFault>
    ensures { Replays is_why (R.remaining reader.old)
        (F.holds file.entry.files.now file.entry.name.now)
        (F.fails file.entry.files.now file.entry.name.now)
        (W.contents writer.old) (W.contents writer.new) result }
{
    let accepted = read_accepted(alloc, reader)?;
    let Some(mut events) = file.files.open_named(file.name) else {
        return Ok(Replayed::NoEvents);
    };
    replay_plan(alloc, &accepted, &mut events, writer, is_why, meter)
}
