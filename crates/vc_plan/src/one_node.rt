//! All processes of a plan on one node.
ghost use Rattle.std.specs.Prelude.{◌≡◌, ◌≤◌, ◌++◌, length, map, IfOk, OnOk};
ghost use Rattle.vc_plan.specs.OneNode.{all_sites, all_vars, inside, AreTogether, IsTogether};
ghost use Rattle.vc_process.specs.InOrder.{number};
ghost use Rattle.vc_process.specs.Numbering.{part_sites};

use crate::channel::{Channel, Home};
use crate::node_plan::{NodePlan, Variable};
use crate::plan::Plan;
use sqlite_items::Items;
use std::alloc::Global;
use vc_packets::Memory;
use vc_process::Process;

/// The processes of all nodes, each over variables that follow those of the nodes before it.
fn processes(alloc: Global, nodes: &Items<NodePlan>) -> Result<Items<Process>, Memory>
    requires { length (all_vars nodes.now) ≤ 64 }
    ensures processes { IfOk result (λ parts. AreTogether nodes.now parts) }
    ensures sites { IfOk result (λ parts. part_sites (map number parts) ≡ all_sites nodes.now) }
{
    let mut parts = Items::new(alloc);
    let mut by: usize = 0;
    for node in nodes.as_slice() {
        let part = node.process.moved(alloc, by as u8)?;
        parts.push(part)?;
        by += node.vars.len();
    }
    Ok(parts)
}

/// Adds equal variables.
fn push_variables(
    alloc: Global,
    vars: &mut Items<Variable>,
    more: &Items<Variable>,
) -> Result<(), Memory>
    ensures { OnOk result (vars.new ≡ vars.old ++ more.now) }
{
    for var in more.as_slice() {
        let name = Items::from_slice(alloc, var.name.as_slice())?;
        vars.push(Variable {
            name,
            kind: var.kind,
        })?;
    }
    Ok(())
}

/// The variables of all nodes, node by node.
fn variables(alloc: Global, nodes: &Items<NodePlan>) -> Result<Items<Variable>, Memory>
    ensures { IfOk result (λ vars. vars ≡ all_vars nodes.now) }
{
    let mut vars = Items::new(alloc);
    for node in nodes.as_slice() {
        push_variables(alloc, &mut vars, &node.vars)?;
    }
    Ok(vars)
}

/// The same channels inside node 0.
fn channels(alloc: Global, channels: &Items<Channel>) -> Result<Items<Channel>, Memory>
    ensures { IfOk result (λ made. made ≡ map inside channels.now) }
{
    let mut made = Items::new(alloc);
    for channel in channels.as_slice() {
        let name = Items::from_slice(alloc, channel.name.as_slice())?;
        made.push(Channel {
            name,
            kind: channel.kind,
            home: Home::Inside { node: 0 },
        })?;
    }
    Ok(made)
}

/// The plan of one node that runs all processes side by side, with every channel inside it; none where the nodes have more than 64
/// variables together, which no node may have. Its channels are those of the plan, in the same order.
pub fn together(alloc: Global, plan: &Plan) -> Result<Option<Plan>, Memory>
    ensures { IfOk result (λ made. IsTogether plan.now made) }
{
    let vars = variables(alloc, &plan.nodes)?;
    if vars.len() > 64 {
        return Ok(None);
    }
    let parts = processes(alloc, &plan.nodes)?;
    let channels = channels(alloc, &plan.channels)?;
    let name = Items::from_slice(alloc, b"all")?;
    let mut nodes = Items::new(alloc);
    nodes.push(NodePlan {
        name,
        vars,
        process: Process::Par(parts),
    })?;
    Ok(Some(Plan {
        version: 2,
        nodes,
        switches: Items::new(alloc),
        wires: Items::new(alloc),
        vlinks: Items::new(alloc),
        channels,
    }))
}
