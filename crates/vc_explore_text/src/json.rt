//! What an exploration finds, as JSON.
ghost use Rattle.std.specs.Prelude.{◌≡◌, ◌++◌, IfOk, OnOk, option_map};
ghost use Rattle.std.specs.List.{enumerate_from, flat_map};
ghost use Rattle.vc_explore_text.specs.ExploredJson.{blocked_item, channel_json, comma as comma_of, ends_json, explored_json as json_of_explored, guard_json, message_json, move_item, move_json, place_json, port_item, site_of as site_in, stuck_json, verdict_json, why_json, wires_json};
ghost use Rattle.vc_explore_text.specs.ExploredText.{is_stopped_by as stopped_by, node_paths as paths_in};
ghost use Rattle.vc_stats.specs.Json.{value_json};
ghost use Rattle.vc_waits.specs.Waits.{waits_on};

use crate::lines::{node_paths, path_of, paths_of, waits_on_stopped};
use sqlite_items::Items;
use std::alloc::Global;
use vc_explore::{BlockedPart, Ends, Explored, ProgramMove, Scheduled, Verdict};
use vc_occam::Blocked;
use vc_packets::{Bytes, Memory};
use vc_plan::{Plan, Port};
use vc_process::{ValueKind, number_in};
use vc_text::{push_number, push_port};
use vc_waits::push_texts;

/// A comma before the n-th of a list, unless it is the first.
fn push_comma(out: &mut Vec<u8>, n: usize) -> Result<(), Memory>
    ensures { OnOk result (out.new.items ≡ out.old.items ++ comma_of n) }
{
    if n > 0 {
        out.push(b',')?;
    }
    Ok(())
}

/// A site by its node and its path: an object that is not closed.
#[tactic(auto, unfolding(crate::specs::ExploredJson::place_json))]
fn push_place(
    out: &mut Vec<u8>,
    plan: &Plan,
    all: &[Items<Bytes>],
    node: u8,
    site: u16,
) -> Result<(), Memory>
    ensures { OnOk result (out.new.items ≡ out.old.items ++ place_json plan.now all.now node site) }
{
    let path = path_of(paths_of(all, node), site);
    let name = plan.node_name(usize::from(node));
    push_texts(
        out,
        &[b"{\"node\":\"", name, b"\",\"path\":\"", path, b"\""],
    )
}

/// The place of a guard, and the end of the object of its ALT.
#[tactic(auto, using(std::proofs::Common::append_assoc))]
fn push_guard(out: &mut Vec<u8>, guard: Option<u16>) -> Result<(), Memory>
    ensures { OnOk result (out.new.items ≡ out.old.items ++ guard_json guard) }
{
    if let Some(place) = guard {
        out.extend_from_slice(b",\"guard\":")?;
        push_number(out, u64::from(place))?;
    }
    out.push(b'}')?;
    Ok(())
}

/// A number, or a text of hexadecimal digits.
#[tactic(auto, using(std::proofs::Common::append_assoc))]
fn push_value(
    alloc: Global,
    out: &mut Vec<u8>,
    kind: ValueKind,
    message: &[u8],
) -> Result<(), Memory>
    ensures { OnOk result (out.new.items ≡ out.old.items ++ value_json kind message.now) }
{
    match kind {
        ValueKind::Int => {
            let mut buffer = itoa::Buffer::new();
            out.extend_from_slice(buffer.format(number_in(message)).as_bytes())?;
        }
        ValueKind::Bytes => {
            let digits = hex::encode(alloc, message)?;
            out.extend_from_slice(b"\"")?;
            out.extend_from_slice(digits.as_bytes())?;
            out.extend_from_slice(b"\"")?;
        }
    }
    Ok(())
}

/// The message that passes on a channel.
fn push_message(
    alloc: Global,
    out: &mut Vec<u8>,
    plan: &Plan,
    chan: u16,
    message: &[u8],
) -> Result<(), Memory>
    ensures { OnOk result (out.new.items ≡ out.old.items
        ++ message_json plan.now chan message.now) }
{
    match plan.channels.get(usize::from(chan)) {
        Some(channel) => push_value(alloc, out, channel.kind, message),
        None => Ok(()),
    }
}

/// A move, with the message that passes by it.
#[tactic(auto, using(std::proofs::Common::append_assoc), unfolding(crate::specs::ExploredJson::move_json))]
fn push_move(
    alloc: Global,
    out: &mut Vec<u8>,
    plan: &Plan,
    all: &[Items<Bytes>],
    scheduled: &Scheduled,
) -> Result<(), Memory>
    ensures { OnOk result (out.new.items ≡ out.old.items
        ++ move_json plan.now all.now scheduled.now.made scheduled.now.message) }
{
    match scheduled.made {
        ProgramMove::Goes { node, site } => {
            out.extend_from_slice(b"{\"goes\":")?;
            push_place(out, plan, all, node, site)?;
            out.extend_from_slice(b"}}")?;
        }
        ProgramMove::Stops { node, site, chan } => {
            out.extend_from_slice(b"{\"stops\":\"")?;
            out.extend_from_slice(plan.channel_name(usize::from(chan)))?;
            out.extend_from_slice(b"\",\"at\":")?;
            push_place(out, plan, all, node, site)?;
            out.extend_from_slice(b"}}")?;
        }
        ProgramMove::Passes {
            chan,
            sender,
            output,
            receiver,
            input,
            guard,
        } => {
            out.extend_from_slice(b"{\"passes\":\"")?;
            out.extend_from_slice(plan.channel_name(usize::from(chan)))?;
            out.extend_from_slice(b"\",\"value\":")?;
            push_message(alloc, out, plan, chan, scheduled.message.as_slice())?;
            out.extend_from_slice(b",\"from\":")?;
            push_place(out, plan, all, sender, output)?;
            out.extend_from_slice(b"},\"to\":")?;
            push_place(out, plan, all, receiver, input)?;
            push_guard(out, guard)?;
            out.push(b'}')?;
        }
    }
    Ok(())
}

/// The n-th move of a schedule.
#[tactic(auto, using(std::proofs::Common::append_assoc))]
fn push_item(
    alloc: Global,
    out: &mut Vec<u8>,
    plan: &Plan,
    all: &[Items<Bytes>],
    n: usize,
    scheduled: &Scheduled,
) -> Result<(), Memory>
    ensures { OnOk result (out.new.items ≡ out.old.items
        ++ move_item plan.now all.now (n, scheduled.now)) }
{
    push_comma(out, n)?;
    push_move(alloc, out, plan, all, scheduled)?;
    Ok(())
}

/// The moves of a schedule, with commas between them.
fn push_moves(
    alloc: Global,
    out: &mut Vec<u8>,
    plan: &Plan,
    all: &[Items<Bytes>],
    schedule: &[Scheduled],
) -> Result<(), Memory>
    ensures { OnOk result (out.new.items ≡ out.old.items
        ++ flat_map (move_item plan.now all.now) (enumerate_from 0 schedule.now)) }
{
    for (n, scheduled) in schedule.iter().enumerate() {
        push_item(alloc, out, plan, all, n, scheduled)?;
    }
    Ok(())
}

/// The site of a part that does not go on by itself.
fn site_of(blocked: Blocked) -> u16
    ensures { result ≡ site_in blocked }
{
    match blocked {
        Blocked::Output { site, .. }
        | Blocked::Input { site, .. }
        | Blocked::Guard { site, .. }
        | Blocked::Closed { site }
        | Blocked::Undecided { site }
        | Blocked::Stop { site }
        | Blocked::Stopped { site } => site,
    }
}

/// A channel on which a part waits, and whether it is stopped.
fn push_channel(out: &mut Vec<u8>, plan: &Plan, chan: u16, is_stopped: bool) -> Result<(), Memory>
    ensures { OnOk result (out.new.items ≡ out.old.items
        ++ channel_json plan.now is_stopped chan) }
{
    let texts: [&[u8]; 3] = [
        b",\"chan\":\"",
        plan.channel_name(usize::from(chan)),
        if is_stopped {
            b"\",\"stopped\":true}"
        } else {
            b"\"}"
        },
    ];
    push_texts(out, &texts)
}

/// What a part waits for, or by what it has stopped, and the end of its object.
#[tactic(auto, using(std::proofs::Common::append_assoc), unfolding(crate::specs::ExploredJson::why_json))]
fn push_why(
    out: &mut Vec<u8>,
    plan: &Plan,
    blocked: Blocked,
    is_stopped: bool,
) -> Result<(), Memory>
    ensures { OnOk result (out.new.items ≡ out.old.items
        ++ why_json plan.now is_stopped blocked) }
{
    match blocked {
        Blocked::Output { chan, .. } => {
            out.extend_from_slice(b",\"for\":\"end\"")?;
            push_channel(out, plan, chan, is_stopped)?;
        }
        Blocked::Input { chan, .. } => {
            out.extend_from_slice(b",\"for\":\"input\"")?;
            push_channel(out, plan, chan, is_stopped)?;
        }
        Blocked::Guard { chan, .. } => {
            out.extend_from_slice(b",\"for\":\"guard\"")?;
            push_channel(out, plan, chan, is_stopped)?;
        }
        Blocked::Closed { .. } => out.extend_from_slice(b",\"by\":\"closed\"}")?,
        Blocked::Undecided { .. } => out.extend_from_slice(b",\"by\":\"fault\"}")?,
        Blocked::Stop { .. } => out.extend_from_slice(b",\"by\":\"stop\"}")?,
        Blocked::Stopped { .. } => out.extend_from_slice(b",\"by\":\"fault or if\"}")?,
    }
    Ok(())
}

/// The n-th part that does not go on by itself after a schedule.
#[tactic(auto, using(std::proofs::Common::append_assoc))]
fn push_blocked(
    out: &mut Vec<u8>,
    plan: &Plan,
    all: &[Items<Bytes>],
    schedule: &[Scheduled],
    n: usize,
    part: &BlockedPart,
) -> Result<(), Memory>
    ensures { OnOk result (out.new.items ≡ out.old.items
        ++ blocked_item plan.now all.now schedule.now (n, part.now)) }
{
    push_comma(out, n)?;
    push_place(out, plan, all, part.node, site_of(part.at))?;
    push_why(out, plan, part.at, waits_on_stopped(schedule, part.at))?;
    Ok(())
}

/// All parts that do not go on by themselves after a schedule, with commas between them.
fn push_all_blocked(
    out: &mut Vec<u8>,
    plan: &Plan,
    all: &[Items<Bytes>],
    schedule: &[Scheduled],
    parts: &[BlockedPart],
) -> Result<(), Memory>
    ensures { OnOk result (out.new.items ≡ out.old.items
        ++ flat_map (blocked_item plan.now all.now schedule.now) (enumerate_from 0 parts.now)) }
{
    for (n, part) in parts.iter().enumerate() {
        push_blocked(out, plan, all, schedule, n, part)?;
    }
    Ok(())
}

/// What is said of a program that gets stuck: the moves of the schedule, and what does not go on then.
#[tactic(auto, using(std::proofs::Common::append_assoc))]
fn push_stuck(
    alloc: Global,
    out: &mut Vec<u8>,
    plan: &Plan,
    all: &[Items<Bytes>],
    schedule: &[Scheduled],
    parts: &[BlockedPart],
) -> Result<(), Memory>
    ensures { OnOk result (out.new.items ≡ out.old.items
        ++ stuck_json plan.now all.now schedule.now parts.now) }
{
    out.extend_from_slice(b"{\"stuck\":{\"moves\":[")?;
    push_moves(alloc, out, plan, all, schedule)?;
    out.extend_from_slice(b"],\"waits\":[")?;
    push_all_blocked(out, plan, all, schedule, parts)?;
    out.extend_from_slice(b"]}")?;
    Ok(())
}

/// Whether each schedule ends, and if not, the moves of a circle.
#[tactic(auto, using(std::proofs::Common::append_assoc))]
fn push_ends(
    alloc: Global,
    out: &mut Vec<u8>,
    plan: &Plan,
    all: &[Items<Bytes>],
    ends: &Ends,
) -> Result<(), Memory>
    ensures { OnOk result (out.new.items ≡ out.old.items ++ ends_json plan.now all.now ends.now) }
{
    match ends {
        Ends::Always => out.extend_from_slice(b"\"always\"")?,
        Ends::MayGoOn { moves, circle } => {
            out.extend_from_slice(b"{\"on_after\":")?;
            push_number(out, *moves as u64)?;
            out.extend_from_slice(b",\"moves\":[")?;
            push_moves(alloc, out, plan, all, circle.as_slice())?;
            out.extend_from_slice(b"]}")?;
        }
    }
    Ok(())
}

/// The first members: what is said of the processes.
#[tactic(auto, using(std::proofs::Common::append_assoc))]
fn push_verdict(
    alloc: Global,
    out: &mut Vec<u8>,
    plan: &Plan,
    verdict: &Verdict,
) -> Result<(), Memory>
    ensures { OnOk result (out.new.items ≡ out.old.items
        ++ verdict_json plan.now (paths_in plan.now) verdict.now) }
{
    let paths = node_paths(alloc, plan)?;
    let all = paths.as_slice();
    match verdict {
        Verdict::NeverStuck { ends } => {
            out.extend_from_slice(b"{\"stuck\":null,\"ends\":")?;
            push_ends(alloc, out, plan, all, ends)?;
        }
        Verdict::Stuck { schedule, blocked } => {
            let (schedule, parts) = (schedule.as_slice(), blocked.as_slice());
            return push_stuck(alloc, out, plan, all, schedule, parts);
        }
        Verdict::NotStuckWithin { moves } => {
            out.extend_from_slice(b"{\"within\":")?;
            push_number(out, *moves as u64)?;
        }
    }
    Ok(())
}

/// The n-th port of a cycle.
#[tactic(auto, using(std::proofs::Common::append_assoc))]
fn push_port_item(out: &mut Vec<u8>, plan: &Plan, n: usize, port: Port) -> Result<(), Memory>
    ensures { OnOk result (out.new.items ≡ out.old.items ++ port_item plan.now (n, port)) }
{
    push_comma(out, n)?;
    out.extend_from_slice(b"\"")?;
    push_port(out, plan, port)?;
    out.extend_from_slice(b"\"")?;
    Ok(())
}

/// The ports of a cycle, with commas between them.
fn push_ports(out: &mut Vec<u8>, plan: &Plan, ports: &[Port]) -> Result<(), Memory>
    ensures { OnOk result (out.new.items ≡ out.old.items
        ++ flat_map (port_item plan.now) (enumerate_from 0 ports.now)) }
{
    for (n, port) in ports.iter().enumerate() {
        push_port_item(out, plan, n, *port)?;
    }
    Ok(())
}

/// The member of the wires.
#[tactic(auto, using(std::proofs::Common::append_assoc))]
fn push_wires(out: &mut Vec<u8>, plan: &Plan, cycle: Option<&[Port]>) -> Result<(), Memory>
    ensures { OnOk result (out.new.items ≡ out.old.items
        ++ wires_json plan.now (option_map (λ ports. ports.now) cycle.entry)) }
{
    match cycle {
        None => out.extend_from_slice(b",\"wires\":{\"free\":true}")?,
        Some(ports) => {
            out.extend_from_slice(b",\"wires\":{\"cycle\":[")?;
            push_ports(out, plan, ports)?;
            out.extend_from_slice(b"]}")?;
        }
    }
    Ok(())
}

/// What was found of an accepted network, as one object: of its processes, of its wires, and how many states were kept. The call fails
/// only when out of memory.
#[tactic(auto, using(std::proofs::Common::append_assoc))]
pub(crate) fn explored_json(
    alloc: Global,
    plan: &Plan,
    explored: &Explored,
    cycle: Option<&[Port]>,
) -> Result<Vec<u8>, Memory>
    ensures { IfOk result (λ text. text.items
        ≡ json_of_explored plan.now explored.now (option_map (λ ports. ports.now) cycle.entry)) }
{
    let mut out = Vec::new(alloc);
    push_verdict(alloc, &mut out, plan, &explored.verdict)?;
    push_wires(&mut out, plan, cycle)?;
    out.extend_from_slice(b",\"states\":")?;
    push_number(&mut out, explored.states as u64)?;
    out.extend_from_slice(b"}\n")?;
    Ok(out)
}
