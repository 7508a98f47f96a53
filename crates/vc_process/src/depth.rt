//! How deep a process is.
ghost use Rattle.std.specs.Prelude.{◌≡◌, ℕ, map};
ghost use Rattle.vc_process.specs.InOrder.{number};
ghost use Rattle.vc_process.specs.Private.InOrder.{number_branch, number_guard};
ghost use Rattle.vc_process.specs.Numbering.{branches_from, guards_from, parts_from};
ghost use Rattle.vc_process.specs.ProcessLimits.{branches_depth_within, depth_within as is_depth_within, guards_depth_within, parts_depth_within};

use crate::process::{Branch, Guard, Process};
use sqlite_items::Items;

/// Whether a process has at most this depth.
#[cycle(depth)]
#[tactic(auto, unfolding(crate::specs::InOrder::number, crate::specs::Private::InOrder::number_branch, crate::specs::Private::InOrder::number_guard))]
pub(crate) fn depth_within(process: &Process, depth: u32) -> bool
    ensures { (site : ℕ) → result ≡ is_depth_within ((number process.now).tree site) depth }
{
    if depth == 0 {
        return false;
    }
    match process {
        Process::Seq(parts) => parts_within(parts, depth - 1),
        Process::Par(parts) => parts_within(parts, depth - 1),
        Process::If(branches) => branches_within(branches, depth - 1),
        Process::While { body, .. } => depth_within(body.get(), depth - 1),
        Process::Count { body, .. } => depth_within(body.get(), depth - 1),
        Process::Alt(guards) => guards_within(guards, depth - 1),
        _ => true,
    }
}

#[cycle(depth)]
#[tactic(auto, unfolding(crate::specs::InOrder::number, crate::specs::Private::InOrder::number_branch, crate::specs::Private::InOrder::number_guard))]
fn parts_within(parts: &Items<Process>, depth: u32) -> bool
    ensures { (site : ℕ) →
        result ≡ parts_depth_within (parts_from site (map number parts.now)) depth }
{
    for part in parts.as_slice() {
        if !depth_within(part, depth) {
            return false;
        }
    }
    true
}

#[cycle(depth)]
#[tactic(auto, unfolding(crate::specs::InOrder::number, crate::specs::Private::InOrder::number_branch, crate::specs::Private::InOrder::number_guard))]
fn branches_within(branches: &Items<Branch>, depth: u32) -> bool
    ensures { (site : ℕ) →
        result ≡ branches_depth_within (branches_from site (map number_branch branches.now)) depth }
{
    for branch in branches.as_slice() {
        if !depth_within(&branch.body, depth) {
            return false;
        }
    }
    true
}

#[cycle(depth)]
#[tactic(auto, unfolding(crate::specs::InOrder::number, crate::specs::Private::InOrder::number_branch, crate::specs::Private::InOrder::number_guard))]
fn guards_within(guards: &Items<Guard>, depth: u32) -> bool
    ensures { (site : ℕ) →
        result ≡ guards_depth_within (guards_from site (map number_guard guards.now)) depth }
{
    for guard in guards.as_slice() {
        if !depth_within(&guard.body, depth) {
            return false;
        }
    }
    true
}
