//! Whether processes use their channels and variables lawfully.
ghost use Rattle.std.specs.Prelude.{◌≡◌, ◌<◌, IfNone, IfOk, IfSome, Some, length, slice_get, true};
ghost use Rattle.std.specs.List.{list_all};
ghost use Rattle.vc_process.specs.Lawful.{Lawfully};
ghost use Rattle.vc_process.specs.Numbering.{written};
ghost use Rattle.vc_process.specs.UseFaults.{IsUseFault};
ghost use Rattle.vc_plan.specs.Check.{IsFirstUsage, IsUsage, channel_name, variable_name};
ghost use Rattle.vc_plan.specs.Accepted.{AreLawful};
ghost use Rattle.vc_plan.specs.Limits.{process_names};

use crate::channel::Channel;
use crate::name::Name;
use crate::node_plan::{NodePlan, Variable};
use crate::plan::Plan;
use sqlite_items::Items;
use std::alloc::Global;
use vc_packets::Memory;
use vc_process::{UseFault, check_use};

fn name_of_channel(alloc: Global, channels: &[Channel], chan: u16) -> Result<Name, Memory>
    requires { chan < length channels.now }
    ensures { IfOk result (λ name. channel_name (slice_get channels.now chan) ≡ Some name) }
{
    let channel = &channels[usize::from(chan)];
    Ok(Items::from_slice(alloc, channel.name.as_slice())?)
}

fn name_of_variable(alloc: Global, vars: &[Variable], var: u8) -> Result<Name, Memory>
    requires { var < length vars.now }
    ensures { IfOk result (λ name. variable_name (slice_get vars.now var) ≡ Some name) }
{
    let var = &vars[usize::from(var)];
    Ok(Items::from_slice(alloc, var.name.as_slice())?)
}

/// The name of what a node's process uses unlawfully.
fn name_of_fault(
    alloc: Global,
    plan: &Plan,
    node: &NodePlan,
    fault: UseFault,
) -> Result<Name, Memory>
    requires names { process_names plan.now node.now ≡ true }
    requires fault { IsUseFault (written node.now.process) fault }
    ensures { IfOk result (λ name. IsUsage plan.now node.now name) }
{
    match fault {
        UseFault::Chan(chan) => name_of_channel(alloc, plan.channels.as_slice(), chan),
        UseFault::Var(var) => name_of_variable(alloc, node.vars.as_slice(), var),
        UseFault::Memory => Err(Memory),
    }
}

/// The name of the first channel or variable that a node's process uses unlawfully.
fn usage_of(alloc: Global, plan: &Plan, node: &NodePlan) -> Result<Option<Name>, Memory>
    requires { process_names plan.now node.now ≡ true }
    ensures lawful { IfOk result (λ found. IfNone found (Lawfully (written node.now.process))) }
    ensures usage { IfOk result (λ found. IfSome found (λ name. IsUsage plan.now node.now name)) }
{
    match check_use(alloc, &node.process) {
        Ok(()) => Ok(None),
        Err(fault) => Ok(Some(name_of_fault(alloc, plan, node, fault)?)),
    }
}

/// The first node whose process uses a channel or a variable unlawfully, and the name of the first of these.
pub(crate) fn find_usage(alloc: Global, plan: &Plan) -> Result<Option<(u8, Name)>, Memory>
    requires few { length plan.now.nodes < 256 }
    requires names { list_all (process_names plan.now) plan.now.nodes ≡ true }
    ensures lawful { IfOk result (λ found. IfNone found (AreLawful plan.now)) }
    ensures first { IfOk result (λ found.
        IfSome found (λ usage. IsFirstUsage plan.now usage.0 usage.1)) }
{
    for (n, node) in plan.nodes.as_slice().iter().enumerate() {
        if let Some(name) = usage_of(alloc, plan, node)? {
            return Ok(Some((n as u8, name)));
        }
    }
    Ok(None)
}
