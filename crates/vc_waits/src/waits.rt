//! The text of who waits for what.
ghost use Rattle.std.specs.Prelude.{◌≡◌, ◌++◌, ℕ, List, IfOk, OnErr, OnOk};
ghost use Rattle.vc_core.specs.State.{IsNetworkOf, state_of};
ghost use Rattle.vc_plan.specs.declared.plan.Plan.{Plan};
ghost use Rattle.vc_waits.specs.Waits.{blocked_line, blocked_lines, blocked_text, blocked_word as word_of, channel_text, node_lines, part_text, path_text, process_path, processes_text, site_text, state_in};
ghost use Rattle.vc_waits.specs.Paths.{paths as paths_of};

use crate::number::push_number;
use crate::paths::push_paths;
use crate::texts::push_texts;
use sqlite_items::Items;
use std::alloc::Global;
use vc_core::Network;
use vc_occam::Blocked;
use vc_packets::{Bytes, Memory};
use vc_plan::{NodePlan, Plan};

/// The path of the process that has a site.
fn path_of(paths: &[Bytes], site: u16) -> &[u8]
    ensures { result.now ≡ path_text paths.now site }
{
    match paths.get(usize::from(site)) {
        Some(path) => path.as_slice(),
        None => &[],
    }
}

/// The path of the process that has a site, between a space and what is said of it.
fn push_site(out: &mut Vec<u8>, paths: &[Bytes], site: u16, what: &[u8]) -> Result<(), Memory>
    ensures ok { OnOk result (out.new.items
        ≡ out.old.items ++ site_text paths.now site what.now) }
    ensures err { OnErr result (out.new.items ≡ out.old.items) }
{
    push_texts(out, &[b" ", path_of(paths, site), what])
}

/// A channel's name, and whether a process has stopped it.
fn push_channel(out: &mut Vec<u8>, plan: &Plan, chan: u16, is_stopped: bool) -> Result<(), Memory>
    ensures ok { OnOk result
        (out.new.items ≡ out.old.items ++ channel_text plan.now is_stopped chan) }
    ensures err { OnErr result (out.new.items ≡ out.old.items) }
{
    let Some(channel) = plan.channels.get(usize::from(chan)) else {
        return Ok(());
    };
    let texts: [&[u8]; 2] = [
        channel.name.as_slice(),
        if is_stopped { b" stopped" } else { b"" },
    ];
    push_texts(out, &texts)
}

/// A part that waits on a channel: its site, what is said of it, and the channel.
#[derive(Clone, Copy, Drop)]
struct Waiting<'a> {
    site: u16,
    what: &'a [u8],
    chan: u16,
}

/// The path of the process that has a site, what is said of it, and the channel on which it waits.
#[tactic(auto, using(std::proofs::Common::append_assoc))]
fn push_site_on(
    out: &mut Vec<u8>,
    plan: &Plan,
    paths: &[Bytes],
    waiting: Waiting<'_>,
    is_stopped: bool,
) -> Result<(), Memory>
    ensures ok { OnOk result (out.new.items ≡ out.old.items
        ++ (site_text paths.now waiting.entry.site waiting.entry.what.now
        ++ channel_text plan.now is_stopped waiting.entry.chan)) }
    ensures err { OnErr result (out.new.items ≡ out.old.items) }
{
    let start = out.len();
    push_site(out, paths, waiting.site, waiting.what)?;
    let named = push_channel(out, plan, waiting.chan, is_stopped);
    if named.is_err() {
        out.truncate(start);
    }
    named
}

/// The word for a part of a process that does not go on by itself: it waits, or it has stopped.
pub fn blocked_word(blocked: Blocked) -> &'static str
    ensures { result.now ≡ word_of blocked }
{
    match blocked {
        Blocked::Output { .. } | Blocked::Input { .. } | Blocked::Guard { .. } => "waits",
        Blocked::Closed { .. }
        | Blocked::Undecided { .. }
        | Blocked::Stop { .. }
        | Blocked::Stopped { .. } => "stopped",
    }
}

/// Adds to a text where a part of a process is that does not go on by itself, and what it waits for or how it has stopped. If it waits
/// on a channel, `is_stopped` says whether that is stopped. The call fails only when out of memory, and the text is then unchanged.
#[tactic(auto, unfolding(crate::specs::Waits::part_text))]
pub fn push_part(
    out: &mut Vec<u8>,
    plan: &Plan,
    paths: &[Bytes],
    blocked: Blocked,
    is_stopped: bool,
) -> Result<(), Memory>
    ensures ok { OnOk result (out.new.items
        ≡ out.old.items ++ part_text plan.now is_stopped paths.now blocked) }
    ensures err { OnErr result (out.new.items ≡ out.old.items) }
{
    let waiting = match blocked {
        Blocked::Output { site, chan } => Waiting {
            site,
            what: b" for the end of its output on ",
            chan,
        },
        Blocked::Input { site, chan } => Waiting {
            site,
            what: b" for an input on ",
            chan,
        },
        Blocked::Guard { site, chan } => Waiting {
            site,
            what: b" for a guard on ",
            chan,
        },
        Blocked::Closed { site } => {
            return push_site(out, paths, site, b" at an ALT without an open guard");
        }
        Blocked::Undecided { site } => return push_site(out, paths, site, b" by a fault"),
        Blocked::Stop { site } => return push_site(out, paths, site, b" by STOP"),
        Blocked::Stopped { site } => {
            return push_site(out, paths, site, b" by a fault or in an IF");
        }
    };
    push_site_on(out, plan, paths, waiting, is_stopped)
}

/// Whether a channel on which a part waits is stopped.
#[tactic(auto, unfolding(crate::specs::Waits::part_text))]
fn waits_on_stopped(network: &Network, blocked: Blocked) -> bool
    ensures { (p : Plan) →
        IsNetworkOf p (state_of network.now) →
        (paths : List (List ℕ)) →
        part_text p result paths blocked ≡ blocked_text p (state_in network.now) paths blocked }
{
    match blocked {
        Blocked::Output { chan, .. } | Blocked::Input { chan, .. } | Blocked::Guard { chan, .. } =>
            { network.stopped(chan) }
        _ => false,
    }
}

/// Adds to a text where a part of a process is that does not go on by itself, and what it waits for or how it has stopped. It fails for
/// want of memory alone, and the text is then as it was.
pub fn push_blocked(
    out: &mut Vec<u8>,
    plan: &Plan,
    network: &Network,
    paths: &[Bytes],
    blocked: Blocked,
) -> Result<(), Memory>
    requires { IsNetworkOf plan.now (state_of network.now) }
    ensures ok { OnOk result (out.new.items
        ≡ out.old.items ++ blocked_text plan.now (state_in network.now) paths.now blocked) }
    ensures err { OnErr result (out.new.items ≡ out.old.items) }
{
    push_part(
        out,
        plan,
        paths,
        blocked,
        waits_on_stopped(network, blocked),
    )
}

/// The line of what blocks a part of a node's process.
#[tactic(auto, using(std::proofs::Common::append_assoc))]
fn push_line(
    out: &mut Vec<u8>,
    plan: &Plan,
    network: &Network,
    node: &NodePlan,
    paths: &[Bytes],
    blocked: Blocked,
) -> Result<(), Memory>
    requires { IsNetworkOf plan.now (state_of network.now) }
    ensures { OnOk result (out.new.items ≡ out.old.items
        ++ blocked_line plan.now (state_in network.now) node.now paths.now blocked) }
{
    out.extend_from_slice(blocked_word(blocked).as_bytes())?;
    out.extend_from_slice(b" ")?;
    out.extend_from_slice(node.name.as_slice())?;
    push_blocked(out, plan, network, paths, blocked)?;
    out.push(10)?;
    Ok(())
}

/// The lines of all that blocks a node's process.
fn push_all(
    out: &mut Vec<u8>,
    plan: &Plan,
    network: &Network,
    node: &NodePlan,
    paths: &[Bytes],
    all: &[Blocked],
) -> Result<(), Memory>
    requires { IsNetworkOf plan.now (state_of network.now) }
    ensures { OnOk result (out.new.items ≡ out.old.items
        ++ blocked_lines plan.now (state_in network.now) node.now paths.now all.now) }
{
    for blocked in all {
        push_line(out, plan, network, node, paths, *blocked)?;
    }
    Ok(())
}

/// The paths of the n-th node's process and of those within it, in order of site. It fails only when out of memory.
#[tactic(auto, using(std::proofs::Common::append_assoc))]
pub fn process_paths(alloc: Global, n: usize, node: &NodePlan) -> Result<Items<Bytes>, Memory>
    ensures { IfOk result (λ found. found ≡ paths_of node.now.process (process_path n)) }
{
    let mut path = Vec::new(alloc);
    path.extend_from_slice(b"/nodes/")?;
    push_number(&mut path, n as u64)?;
    path.extend_from_slice(b"/process")?;
    let mut found = Items::new(alloc);
    push_paths(alloc, &mut found, path.as_slice(), &node.process)?;
    Ok(found)
}

/// The lines of the n-th node.
fn push_node(
    alloc: Global,
    out: &mut Vec<u8>,
    plan: &Plan,
    network: &Network,
    n: usize,
    node: &NodePlan,
) -> Result<(), Memory>
    requires { IsNetworkOf plan.now (state_of network.now) }
    ensures { OnOk result (out.new.items
        ≡ out.old.items ++ node_lines plan.now (state_in network.now) (n, node.now)) }
{
    let all = network.blocked(alloc, n)?;
    let paths = process_paths(alloc, n, node)?;
    push_all(out, plan, network, node, paths.as_slice(), all.as_slice())
}

/// Adds a line to a text for each part of a process of the plan's network that does not go on by itself: what it waits for, or how it
/// has stopped. The nodes come in the plan's order, and the parts of a process in the order of the file.
pub(crate) fn push_processes(
    alloc: Global,
    out: &mut Vec<u8>,
    plan: &Plan,
    network: &Network,
) -> Result<(), Memory>
    requires { IsNetworkOf plan.now (state_of network.now) }
    ensures { OnOk result (out.new.items
        ≡ out.old.items ++ processes_text plan.now (state_in network.now)) }
{
    for (n, node) in plan.nodes.as_slice().iter().enumerate() {
        push_node(alloc, out, plan, network, n, node)?;
    }
    Ok(())
}
