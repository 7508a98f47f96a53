//! How many processes are written in a process.
ghost use Rattle.std.specs.Prelude.{◌≡◌, ◌+◌, ◌≤◌, ◌<◌, MatchOption, map};
ghost use Rattle.vc_process.specs.InOrder.{number};
ghost use Rattle.vc_process.specs.Private.InOrder.{number_branch, number_guard};
ghost use Rattle.vc_process.specs.Numbering.{branch_sites, guard_sites, part_sites};

use crate::process::{Branch, Guard, Process};
use sqlite_items::Items;

impl Process {
    /// How many sites it has, itself and those within it; None where these are more than so many.
    #[cycle(sites)]
    pub fn sites(&self, most: u32) -> Option<u32>
        ensures { MatchOption result (most < (number self.now).sites)
            (λ n. (n ≡ (number self.now).sites) × (n ≤ most)) }
    {
        if most == 0 {
            return None;
        }
        let within = self.sites_within(most - 1)?;
        Some(within + 1)
    }

    /// How many sites those within it have; None where these are more than so many.
    #[cycle(sites)]
    #[tactic(auto, unfolding(crate::specs::InOrder::number, crate::specs::Private::InOrder::number_branch, crate::specs::Private::InOrder::number_guard))]
    fn sites_within(&self, most: u32) -> Option<u32>
        ensures { MatchOption result (most + 1 < (number self.now).sites)
            (λ n. (n + 1 ≡ (number self.now).sites) × (n ≤ most)) }
    {
        match self {
            Process::Seq(parts) => sites_of(parts, most),
            Process::Par(parts) => sites_of(parts, most),
            Process::If(branches) => sites_of_branches(branches, most),
            Process::While { body, .. } => body.get().sites(most),
            Process::Count { body, .. } => body.get().sites(most),
            Process::Alt(guards) => sites_of_guards(guards, most),
            _ => Some(0),
        }
    }
}

#[cycle(sites)]
#[tactic(auto, unfolding(crate::specs::InOrder::number, crate::specs::Private::InOrder::number_branch, crate::specs::Private::InOrder::number_guard))]
fn sites_of(parts: &Items<Process>, most: u32) -> Option<u32>
    ensures { MatchOption result (most < part_sites (map number parts.now))
        (λ n. (n ≡ part_sites (map number parts.now)) × (n ≤ most)) }
{
    let mut found = 0;
    for part in parts.as_slice() {
        match part.sites(most - found) {
            Some(more) => found += more,
            None => return None,
        }
    }
    Some(found)
}

#[cycle(sites)]
#[tactic(auto, unfolding(crate::specs::InOrder::number, crate::specs::Private::InOrder::number_branch, crate::specs::Private::InOrder::number_guard))]
fn sites_of_branches(branches: &Items<Branch>, most: u32) -> Option<u32>
    ensures { MatchOption result (most < branch_sites (map number_branch branches.now))
        (λ n. (n ≡ branch_sites (map number_branch branches.now)) × (n ≤ most)) }
{
    let mut found = 0;
    for branch in branches.as_slice() {
        match branch.body.sites(most - found) {
            Some(more) => found += more,
            None => return None,
        }
    }
    Some(found)
}

#[cycle(sites)]
#[tactic(auto, unfolding(crate::specs::InOrder::number, crate::specs::Private::InOrder::number_branch, crate::specs::Private::InOrder::number_guard))]
fn sites_of_guards(guards: &Items<Guard>, most: u32) -> Option<u32>
    ensures { MatchOption result (most < guard_sites (map number_guard guards.now))
        (λ n. (n ≡ guard_sites (map number_guard guards.now)) × (n ≤ most)) }
{
    let mut found = 0;
    for guard in guards.as_slice() {
        match guard.body.sites(most - found) {
            Some(more) => found += more,
            None => return None,
        }
    }
    Some(found)
}
