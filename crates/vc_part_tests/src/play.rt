//! Processes as they run, step by step. Of their variables 0 and 1 are numbers, and 2 and 3 bytes; the channels 8 and 9 are inside
//! their node.
ghost use Rattle.vc_process.specs.Lawful.{Lawfully};
ghost use Rattle.vc_process.specs.Numbering.{written};

use crate::read::read;
use std::alloc::Global;
use std::test::Fail;
use vc_occam::{Answer, Move, Process, Running, Steps, ValueKind, check_use};
use vc_packets::Bytes;

/// What happens next to a process, or what it shows.
#[derive(Clone, Copy)]
pub(crate) enum Step<'a> {
    /// It may begin with exactly these moves, and has not ended.
    Lists(&'a [Move]),
    /// It makes a quiet move at each of these sites in turn, and each time it has no other.
    Quietly(&'a [u16]),
    /// Of at most so many quiet moves in a row it makes so many, the last of them at this site.
    GoesOn(u64, u64, u16),
    /// It lists an output at this site, on this channel, of this message.
    Sends(u16, u16, &'a [u8]),
    /// It lists an output at this site, on this channel, of this number.
    SendsNumber(u16, u16, i64),
    /// It makes this move, which it lists. The message of an input comes later.
    Makes(Move),
    /// Its output on this channel is finished.
    Finishes(u16),
    /// Its input on this channel gets this message.
    Gets(u16, &'a [u8]),
    /// Nothing remains of it.
    Ends,
}

/// A process, as a network file writes it, and what happens as it runs.
#[derive(Clone, Copy)]
pub(crate) struct Row<'a> {
    /// What the row shows.
    pub(crate) shows: &'a str,
    /// The process.
    pub(crate) process: &'a str,
    /// What happens, in order.
    pub(crate) steps: &'a [Step<'a>],
}

/// What the first row shows whose process does not take its steps.
pub(crate) fn first_wrong_row<'a>(
    alloc: Global,
    rows: &[Row<'a>],
) -> Result<Option<&'a str>, Fail> {
    for row in rows {
        if !takes_all(alloc, row.process, row.steps)? {
            return Ok(Some(row.shows));
        }
    }
    Ok(None)
}

/// Whether the process takes these steps, and so does a copy of it.
pub(crate) fn takes_all(alloc: Global, process: &str, steps: &[Step]) -> Result<bool, Fail> {
    let plan = read(alloc, process)?;
    let node = plan.nodes.get(0).ok_or("a node")?;
    Ok(
        takes_each(alloc, &node.process, steps)?
            && takes_each(alloc, &node.process.copy(alloc)?, steps)?,
    )
}

/// Whether the process takes these steps.
fn takes_each(alloc: Global, process: &Process, steps: &[Step]) -> Result<bool, Fail> {
    let mut running = begin(alloc, process)?;
    for step in steps {
        if !takes(&mut running, alloc, *step)? {
            return Ok(false);
        }
    }
    Ok(true)
}

/// The process at its beginning, once it is seen that it can run.
fn begin(alloc: Global, process: &Process) -> Result<Running, Fail> {
    if check_use(alloc, process).is_err() {
        return Err(Fail::from("a process of lawful use"));
    }
    begin_lawful(alloc, process)
}

fn begin_lawful(alloc: Global, process: &Process) -> Result<Running, Fail>
    requires { Lawfully (written process.now) }
{
    let kinds = [
        ValueKind::Int,
        ValueKind::Int,
        ValueKind::Bytes,
        ValueKind::Bytes,
    ];
    if process.sites(4096).is_none() {
        return Err(Fail::from("few processes"));
    }
    if !process.fits(&kinds, 512) {
        return Err(Fail::from("variables that are there"));
    }
    Ok(Running::new(alloc, process, &kinds, &[8, 9])?)
}

/// Whether the process takes this step.
fn takes(running: &mut Running, alloc: Global, step: Step) -> Result<bool, Fail> {
    match step {
        Step::Lists(moves) => lists_all(running, moves),
        Step::Quietly(sites) => takes_quietly(running, sites),
        Step::GoesOn(most, made, last) => Ok(goes_on(running, most, made, last)),
        Step::Sends(site, chan, message) => sends(running, Move::Offer { site, chan }, message),
        Step::SendsNumber(site, chan, number) => {
            sends(running, Move::Offer { site, chan }, &number.to_le_bytes())
        }
        Step::Makes(made) => makes(running, made),
        Step::Finishes(chan) => Ok(finishes(running, chan)),
        Step::Gets(chan, message) => { Ok(gets(running, chan, Bytes::from_slice(alloc, message)?)) }
        Step::Ends => Ok(running.ended()),
    }
}

/// Whether these are the process's moves, as a list of its own and as one in a list that is there.
fn lists_all(running: &Running, moves: &[Move]) -> Result<bool, Fail> {
    let mut found = running.actions()?;
    let are_all = found.as_slice() == moves;
    running.list_actions(&mut found)?;
    Ok(!running.ended() && are_all && found.as_slice() == moves)
}

fn takes_quietly(running: &mut Running, sites: &[u16]) -> Result<bool, Fail> {
    for site in sites {
        let quiet = Move::Quiet { site: *site };
        if !lists_all(running, &[quiet])? || !running.lists(&quiet) {
            return Ok(false);
        }
        running.act_quietly(*site)?;
    }
    Ok(true)
}

fn goes_on(running: &mut Running, most: u64, made: u64, last: u16) -> bool {
    let mut steps = Steps {
        left: most,
        last: 0,
    };
    running.make_steps(&mut steps);
    steps.left.checked_add(made) == Some(most) && steps.last == last
}

fn sends(running: &Running, offer: Move, message: &[u8]) -> Result<bool, Fail> {
    if !running.lists(&offer) {
        return Ok(false);
    }
    let sent = running.value(&offer)?.ok_or("a message")?;
    Ok(sent.as_slice() == message)
}

fn makes(running: &mut Running, made: Move) -> Result<bool, Fail> {
    if !running.lists(&made) {
        return Ok(false);
    }
    match made {
        Move::Want { .. } => running.act(&made, Answer::Waits)?,
        Move::Choose { .. } => running.act(&made, Answer::Waits)?,
        Move::Inner { .. } => {
            let sent = running.value(&made)?.ok_or("a message")?;
            running.act(&made, Answer::Got(sent))?;
        }
        Move::Offer { .. } => running.act(&made, Answer::Nothing)?,
        Move::Stopch { .. } => running.act(&made, Answer::Nothing)?,
        Move::Quiet { .. } => running.act(&made, Answer::Nothing)?,
    }
    Ok(true)
}

fn finishes(running: &mut Running, chan: u16) -> bool {
    match running.output_on(chan) {
        Some(site) => {
            running.resume(site, None);
            true
        }
        None => false,
    }
}

fn gets(running: &mut Running, chan: u16, message: Bytes) -> bool {
    match running.input_on(chan) {
        Some(site) => {
            running.resume(site, Some(message));
            true
        }
        None => false,
    }
}
