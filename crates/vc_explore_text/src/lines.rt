//! The lines of what an exploration finds.
ghost use Rattle.std.specs.Prelude.{◌≡◌, ◌++◌, IfOk, OnOk, option_map};
ghost use Rattle.std.specs.List.{flat_map};
ghost use Rattle.vc_explore_text.specs.ExploredText.{blocked_line, count_line, ends_text, explored_text as text_of_explored, guard_text, is_stopped_by as stopped_by, message_text, move_line, move_text, never_text, node_paths as paths_in, paths_of as own_paths, place_text, stuck_text, verdict_text};
ghost use Rattle.vc_text.specs.Deadlock.{deadlock_text};
ghost use Rattle.vc_text.specs.Traffic.{value_text};
ghost use Rattle.vc_waits.specs.Waits.{path_text, waits_on};

use sqlite_items::Items;
use std::alloc::Global;
use vc_explore::{BlockedPart, Ends, Explored, ProgramMove, Scheduled, Verdict};
use vc_occam::Blocked;
use vc_packets::{Bytes, Memory};
use vc_plan::{Plan, Port};
use vc_process::{ValueKind, number_in};
use vc_text::{cycle_text, push_number};
use vc_waits::{blocked_word, process_paths, push_part, push_texts};

/// Of each node, the paths of its process and of those within it.
pub(crate) fn node_paths(alloc: Global, plan: &Plan) -> Result<Vec<Items<Bytes>>, Memory>
    ensures { IfOk result (λ all. all.items ≡ paths_in plan.now) }
{
    let mut all = Vec::new(alloc);
    for (n, node) in plan.nodes.as_slice().iter().enumerate() {
        all.push(process_paths(alloc, n, node)?)?;
    }
    Ok(all)
}

/// The paths of one node.
pub(crate) fn paths_of(all: &[Items<Bytes>], node: u8) -> &[Bytes]
    ensures { result.now ≡ own_paths all.now node }
{
    match all.get(usize::from(node)) {
        Some(own) => own.as_slice(),
        None => &[],
    }
}

/// The path of a site.
pub(crate) fn path_of(paths: &[Bytes], site: u16) -> &[u8]
    ensures { result.now ≡ path_text paths.now site }
{
    match paths.get(usize::from(site)) {
        Some(path) => path.as_slice(),
        None => &[],
    }
}

/// A site, by its node and its path.
#[tactic(auto, unfolding(crate::specs::ExploredText::place_text))]
fn push_place(
    out: &mut Vec<u8>,
    plan: &Plan,
    all: &[Items<Bytes>],
    node: u8,
    site: u16,
) -> Result<(), Memory>
    ensures { OnOk result (out.new.items ≡ out.old.items ++ place_text plan.now all.now node site) }
{
    let path = path_of(paths_of(all, node), site);
    push_texts(out, &[plan.node_name(usize::from(node)), b" ", path])
}

/// A number in decimal, or bytes in hexadecimal, `-` for none.
fn push_value(
    alloc: Global,
    out: &mut Vec<u8>,
    kind: ValueKind,
    message: &[u8],
) -> Result<(), Memory>
    ensures { OnOk result (out.new.items ≡ out.old.items ++ value_text kind message.now) }
{
    match kind {
        ValueKind::Int => {
            let mut buffer = itoa::Buffer::new();
            out.extend_from_slice(buffer.format(number_in(message)).as_bytes())?;
        }
        ValueKind::Bytes if message.is_empty() => out.extend_from_slice(b"-")?,
        ValueKind::Bytes => {
            let digits = hex::encode(alloc, message)?;
            out.extend_from_slice(digits.as_bytes())?;
        }
    }
    Ok(())
}

/// The message that passes on a channel.
fn push_message(
    alloc: Global,
    out: &mut Vec<u8>,
    plan: &Plan,
    chan: u16,
    message: &[u8],
) -> Result<(), Memory>
    ensures { OnOk result (out.new.items ≡ out.old.items
        ++ message_text plan.now chan message.now) }
{
    match plan.channels.get(usize::from(chan)) {
        Some(channel) => push_value(alloc, out, channel.kind, message),
        None => Ok(()),
    }
}

/// The place of a guard after the path of its ALT.
fn push_guard(out: &mut Vec<u8>, guard: Option<u16>) -> Result<(), Memory>
    ensures { OnOk result (out.new.items ≡ out.old.items ++ guard_text guard) }
{
    if let Some(place) = guard {
        out.extend_from_slice(b"/alt/")?;
        push_number(out, u64::from(place))?;
    }
    Ok(())
}

/// A move, with the message that passes by it.
#[tactic(auto, using(std::proofs::Common::append_assoc), unfolding(crate::specs::ExploredText::move_text))]
fn push_move(
    alloc: Global,
    out: &mut Vec<u8>,
    plan: &Plan,
    all: &[Items<Bytes>],
    scheduled: &Scheduled,
) -> Result<(), Memory>
    ensures { OnOk result (out.new.items ≡ out.old.items
        ++ move_text plan.now all.now scheduled.now.made scheduled.now.message) }
{
    match scheduled.made {
        ProgramMove::Goes { node, site } => {
            out.extend_from_slice(b"goes ")?;
            push_place(out, plan, all, node, site)
        }
        ProgramMove::Stops { node, site, chan } => {
            push_texts(
                out,
                &[b"stops ", plan.channel_name(usize::from(chan)), b" "],
            )?;
            push_place(out, plan, all, node, site)
        }
        ProgramMove::Passes {
            chan,
            sender,
            output,
            receiver,
            input,
            guard,
        } => {
            push_texts(
                out,
                &[b"passes ", plan.channel_name(usize::from(chan)), b" "],
            )?;
            push_message(alloc, out, plan, chan, scheduled.message.as_slice())?;
            out.extend_from_slice(b" from ")?;
            push_place(out, plan, all, sender, output)?;
            out.extend_from_slice(b" to ")?;
            push_place(out, plan, all, receiver, input)?;
            push_guard(out, guard)
        }
    }
}

/// The lines of a schedule's moves.
#[tactic(auto, using(std::proofs::Common::append_assoc))]
fn push_moves(
    alloc: Global,
    out: &mut Vec<u8>,
    plan: &Plan,
    all: &[Items<Bytes>],
    schedule: &[Scheduled],
) -> Result<(), Memory>
    ensures { OnOk result (out.new.items ≡ out.old.items
        ++ flat_map (move_line plan.now all.now) schedule.now) }
{
    for scheduled in schedule {
        push_move(alloc, out, plan, all, scheduled)?;
        out.push(10)?;
    }
    Ok(())
}

/// Whether a schedule stops a channel.
fn is_stopped_by(schedule: &[Scheduled], chan: u16) -> bool
    ensures { result ≡ stopped_by schedule.now chan }
{
    schedule.iter().any(
        |s| matches!(s.made, ProgramMove::Stops { chan: stopped, .. } if stopped == chan),
    )
}

/// Whether a schedule stops the channel on which a part waits.
pub(crate) fn waits_on_stopped(schedule: &[Scheduled], blocked: Blocked) -> bool
    ensures { result ≡ waits_on (stopped_by schedule.now) blocked }
{
    match blocked {
        Blocked::Output { chan, .. } | Blocked::Input { chan, .. } | Blocked::Guard { chan, .. } =>
            { is_stopped_by(schedule, chan) }
        _ => false,
    }
}

/// The line of a part that does not go on by itself after a schedule.
#[tactic(auto, using(std::proofs::Common::append_assoc), unfolding(crate::specs::ExploredText::blocked_line))]
fn push_blocked(
    out: &mut Vec<u8>,
    plan: &Plan,
    all: &[Items<Bytes>],
    schedule: &[Scheduled],
    part: &BlockedPart,
) -> Result<(), Memory>
    ensures { OnOk result (out.new.items ≡ out.old.items
        ++ blocked_line plan.now all.now schedule.now part.now) }
{
    out.extend_from_slice(blocked_word(part.at).as_bytes())?;
    out.extend_from_slice(b" ")?;
    out.extend_from_slice(plan.node_name(usize::from(part.node)))?;
    let is_stopped = waits_on_stopped(schedule, part.at);
    push_part(out, plan, paths_of(all, part.node), part.at, is_stopped)?;
    out.push(10)?;
    Ok(())
}

/// The lines of all parts that do not go on by themselves after a schedule.
fn push_all_blocked(
    out: &mut Vec<u8>,
    plan: &Plan,
    all: &[Items<Bytes>],
    schedule: &[Scheduled],
    parts: &[BlockedPart],
) -> Result<(), Memory>
    ensures { OnOk result (out.new.items ≡ out.old.items
        ++ flat_map (blocked_line plan.now all.now schedule.now) parts.now) }
{
    for part in parts {
        push_blocked(out, plan, all, schedule, part)?;
    }
    Ok(())
}

/// A line that ends with how many moves there are.
#[tactic(auto, using(std::proofs::Common::append_assoc))]
fn push_count(out: &mut Vec<u8>, what: &[u8], moves: usize) -> Result<(), Memory>
    ensures { OnOk result (out.new.items ≡ out.old.items ++ count_line what.now moves) }
{
    out.extend_from_slice(what)?;
    push_number(out, moves as u64)?;
    out.extend_from_slice(b" moves\n")?;
    Ok(())
}

/// The lines of a program that gets stuck: the moves of the schedule, and what does not go on then.
#[tactic(auto, using(std::proofs::Common::append_assoc))]
fn push_stuck(
    alloc: Global,
    out: &mut Vec<u8>,
    plan: &Plan,
    all: &[Items<Bytes>],
    schedule: &[Scheduled],
    parts: &[BlockedPart],
) -> Result<(), Memory>
    ensures { OnOk result (out.new.items ≡ out.old.items
        ++ stuck_text plan.now all.now schedule.now parts.now) }
{
    push_count(out, b"stuck after ", schedule.len())?;
    push_moves(alloc, out, plan, all, schedule)?;
    push_all_blocked(out, plan, all, schedule, parts)?;
    Ok(())
}

/// The lines on whether each schedule ends, and if not, of the moves of a circle.
#[tactic(auto, using(std::proofs::Common::append_assoc))]
fn push_ends(
    alloc: Global,
    out: &mut Vec<u8>,
    plan: &Plan,
    all: &[Items<Bytes>],
    ends: &Ends,
) -> Result<(), Memory>
    ensures { OnOk result (out.new.items ≡ out.old.items ++ ends_text plan.now all.now ends.now) }
{
    match ends {
        Ends::Always => out.extend_from_slice(b"always ends\n")?,
        Ends::MayGoOn { moves, circle } => {
            push_count(out, b"may go on for ever after ", *moves)?;
            push_moves(alloc, out, plan, all, circle.as_slice())?;
        }
    }
    Ok(())
}

/// The lines of a program that never gets stuck.
#[tactic(auto, using(std::proofs::Common::append_assoc))]
fn push_never(
    alloc: Global,
    out: &mut Vec<u8>,
    plan: &Plan,
    all: &[Items<Bytes>],
    ends: &Ends,
) -> Result<(), Memory>
    ensures { OnOk result (out.new.items ≡ out.old.items ++ never_text plan.now all.now ends.now) }
{
    out.extend_from_slice(b"never stuck\n")?;
    push_ends(alloc, out, plan, all, ends)
}

/// The lines of a verdict.
fn push_verdict(
    alloc: Global,
    out: &mut Vec<u8>,
    plan: &Plan,
    verdict: &Verdict,
) -> Result<(), Memory>
    ensures { OnOk result (out.new.items ≡ out.old.items
        ++ verdict_text plan.now (paths_in plan.now) verdict.now) }
{
    let paths = node_paths(alloc, plan)?;
    let all = paths.as_slice();
    match verdict {
        Verdict::NeverStuck { ends } => push_never(alloc, out, plan, all, ends),
        Verdict::Stuck { schedule, blocked } => {
            let (schedule, parts) = (schedule.as_slice(), blocked.as_slice());
            push_stuck(alloc, out, plan, all, schedule, parts)
        }
        Verdict::NotStuckWithin { moves } => push_count(out, b"not stuck within ", *moves),
    }
}

/// The line of the wires, after its first word.
fn push_wires(
    alloc: Global,
    out: &mut Vec<u8>,
    plan: &Plan,
    cycle: Option<&[Port]>,
) -> Result<(), Memory>
    ensures { OnOk result (out.new.items ≡ out.old.items
        ++ deadlock_text plan.now (option_map (λ ports. ports.now) cycle.entry)) }
{
    match cycle {
        None => out.extend_from_slice(b"free\n")?,
        Some(ports) => {
            let line = cycle_text(alloc, plan, ports)?;
            out.extend_from_slice(line.as_slice())?;
        }
    }
    Ok(())
}

/// All lines of what was found of an accepted network: of its processes, of its wires, and how many states were kept. The call fails only
/// when out of memory.
#[tactic(auto, using(std::proofs::Common::append_assoc))]
pub(crate) fn explored_text(
    alloc: Global,
    plan: &Plan,
    explored: &Explored,
    cycle: Option<&[Port]>,
) -> Result<Vec<u8>, Memory>
    ensures { IfOk result (λ text. text.items
        ≡ text_of_explored plan.now explored.now (option_map (λ ports. ports.now) cycle.entry)) }
{
    let mut out = Vec::new(alloc);
    push_verdict(alloc, &mut out, plan, &explored.verdict)?;
    out.extend_from_slice(b"wires ")?;
    push_wires(alloc, &mut out, plan, cycle)?;
    out.extend_from_slice(b"states ")?;
    push_number(&mut out, explored.states as u64)?;
    out.push(10)?;
    Ok(out)
}
