//! What the label of a node says of its process.
ghost use Rattle.std.specs.Prelude.{◌≡◌, ◌++◌, map, IfOk, OnOk};
ghost use Rattle.std.specs.List.{enumerate_from, flat_map};
ghost use Rattle.vc_core.specs.State.{IsNetworkOf, shown, state_of};
ghost use Rattle.vc_draw.specs.State.{node_label as label_of_node, part_line};

use sqlite_items::Items;
use std::alloc::Global;
use vc_core::Network;
use vc_occam::Blocked;
use vc_packets::{Bytes, Memory};
use vc_plan::{NodePlan, Plan};
use vc_waits::{blocked_word, process_paths, push_blocked};

/// The line of a part of a process that does not go on by itself.
#[tactic(auto, using(std::proofs::Common::append_assoc))]
fn push_part(
    out: &mut Vec<u8>,
    plan: &Plan,
    network: &Network,
    paths: &[Bytes],
    blocked: Blocked,
) -> Result<(), Memory>
    requires { IsNetworkOf plan.now (state_of network.now) }
    ensures { OnOk result (out.new.items
        ≡ out.old.items ++ part_line plan.now (shown (state_of network.now)) paths.now blocked) }
{
    out.extend_from_slice(blocked_word(blocked).as_bytes())?;
    push_blocked(out, plan, network, paths, blocked)?;
    out.extend_from_slice(b"\\l")?;
    Ok(())
}

fn push_parts(
    out: &mut Vec<u8>,
    plan: &Plan,
    network: &Network,
    paths: &[Bytes],
    all: &[Blocked],
) -> Result<(), Memory>
    requires { IsNetworkOf plan.now (state_of network.now) }
    ensures { OnOk result (out.new.items ≡ out.old.items
        ++ flat_map (part_line plan.now (shown (state_of network.now)) paths.now) all.now) }
{
    for blocked in all {
        push_part(out, plan, network, paths, *blocked)?;
    }
    Ok(())
}

/// What the label of the n-th node says: a line for each part of its process that waits or has stopped.
fn node_label(
    alloc: Global,
    plan: &Plan,
    network: &Network,
    n: usize,
    node: &NodePlan,
) -> Result<Vec<u8>, Memory>
    requires { IsNetworkOf plan.now (state_of network.now) }
    ensures { IfOk result (λ lines.
        lines.items ≡ label_of_node plan.now (shown (state_of network.now)) (n, node.now)) }
{
    let all = network.blocked(alloc, n)?;
    let paths = process_paths(alloc, n, node)?;
    let mut lines = Vec::new(alloc);
    push_parts(&mut lines, plan, network, paths.as_slice(), all.as_slice())?;
    Ok(lines)
}

/// What the labels of all nodes say.
pub(crate) fn node_labels(
    alloc: Global,
    plan: &Plan,
    network: &Network,
) -> Result<Items<Bytes>, Memory>
    requires { IsNetworkOf plan.now (state_of network.now) }
    ensures { IfOk result (λ labels. labels
        ≡ map (label_of_node plan.now (shown (state_of network.now)))
        (enumerate_from 0 plan.now.nodes)) }
{
    let mut labels = Items::new(alloc);
    for (n, node) in plan.nodes.as_slice().iter().enumerate() {
        let lines = node_label(alloc, plan, network, n, node)?;
        labels.push(Bytes::from_vec(lines))?;
    }
    Ok(labels)
}
