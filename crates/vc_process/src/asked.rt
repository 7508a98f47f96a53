//! What is asked of each process within a process.
ghost use Rattle.std.specs.Prelude.{◌≡◌, ◌&&◌, ℕ, map};
ghost use Rattle.vc_process.specs.Private.Questions.{asking, everywhere as is_everywhere, in_branches as is_in_branches, in_guards as is_in_guards, in_length_itself, in_parts as is_in_parts, keeps_itself as does_keep, names_itself, within_itself};
ghost use Rattle.vc_process.specs.InOrder.{number};
ghost use Rattle.vc_process.specs.Private.InOrder.{number_branch, number_guard};
ghost use Rattle.vc_process.specs.Numbering.{branches_from, guards_from, parts_from};
ghost use Rattle.vc_process.specs.ProcessLimits.{test_within, test_fits};
ghost use Rattle.vc_process.specs.Terms.{as_test};

use crate::condition::Cond;
use crate::limits::holds_kind;
use crate::process::{Branch, Guard, Process};
use crate::value_kind::ValueKind;
use sqlite_items::Items;

/// A question.
#[derive(Clone, Copy, Drop)]
pub(crate) enum Asked {
    /// Have its expressions at most this depth?
    Expressions { depth: u32 },
    /// Has its message at most 65,535 bytes?
    Length,
    /// Is its channel among so many, and are its variables there and of the kinds that it wants?
    Names { channels: usize },
    /// Does it leave this variable as it is?
    Keeps { var: u8 },
}

impl Cond {
    /// Whether the condition has at most this depth; TRUE and FALSE have depth 1.
    #[tactic(auto, unfolding(crate::specs::Terms::as_test))]
    fn is_within(&self, depth: u32) -> bool
        ensures { result ≡ test_within (as_test self.now) depth }
    {
        match self {
            Cond::Always(_) => depth > 0,
            Cond::Cmp { left, right, .. } => {
                depth > 0 && left.is_within(depth - 1) && right.is_within(depth - 1)
            }
            Cond::And(left, right) => {
                depth > 0 && left.get().is_within(depth - 1) && right.get().is_within(depth - 1)
            }
            Cond::Or(left, right) => {
                depth > 0 && left.get().is_within(depth - 1) && right.get().is_within(depth - 1)
            }
            Cond::Not(cond) => depth > 0 && cond.get().is_within(depth - 1),
        }
    }

    /// Whether its variables are among these, and hold numbers where it wants them.
    #[tactic(auto, unfolding(crate::specs::Terms::as_test))]
    fn fits(&self, kinds: &[ValueKind]) -> bool
        ensures { result ≡ test_fits (as_test self.now) kinds.now }
    {
        match self {
            Cond::Always(_) => true,
            Cond::Cmp { left, right, .. } => left.fits(kinds) && right.fits(kinds),
            Cond::And(left, right) => left.get().fits(kinds) && right.get().fits(kinds),
            Cond::Or(left, right) => left.get().fits(kinds) && right.get().fits(kinds),
            Cond::Not(cond) => cond.get().fits(kinds),
        }
    }
}

/// Whether its own expressions have at most this depth.
#[tactic(auto, unfolding(crate::specs::InOrder::number))]
fn is_within_itself(process: &Process, depth: u32) -> bool
    ensures { (site : ℕ) → result ≡ within_itself depth ((number process.now).tree site) }
{
    match process {
        Process::Set { value, .. } => value.is_within(depth),
        Process::Send { value, .. } => value.is_within(depth),
        Process::While { cond, .. } => cond.is_within(depth),
        Process::Count { base, count, .. } => base.is_within(depth) && count.is_within(depth),
        _ => true,
    }
}

/// Whether its own message has at most 65,535 bytes.
#[tactic(auto, unfolding(crate::specs::InOrder::number))]
fn is_in_length_itself(process: &Process) -> bool
    ensures { (site : ℕ) → result ≡ in_length_itself ((number process.now).tree site) }
{
    match process {
        Process::Set { value, .. } => value.is_in_length(),
        Process::Send { value, .. } => value.is_in_length(),
        _ => true,
    }
}

/// Whether its own channel is among so many, and its own variables are there and of the kinds that it wants.
#[tactic(auto, unfolding(crate::specs::InOrder::number))]
fn fits_itself(process: &Process, kinds: &[ValueKind], channels: usize) -> bool
    ensures { (site : ℕ) →
        result ≡ names_itself kinds.now channels ((number process.now).tree site) }
{
    match process {
        Process::Set { var, value } => holds_kind(kinds, *var, value.kind()) && value.fits(kinds),
        Process::Send { chan, value } => usize::from(*chan) < channels && value.fits(kinds),
        Process::Receive { chan, var } => usize::from(*chan) < channels
            && usize::from(*var) < kinds.len(),
        Process::Stopch { chan } => usize::from(*chan) < channels,
        Process::While { cond, .. } => cond.fits(kinds),
        Process::Count {
            var,
            base,
            count,
            ..
        } => holds_kind(kinds, *var, ValueKind::Int) && base.fits(kinds) && count.fits(kinds),
        _ => true,
    }
}

/// Whether it leaves this variable as it is.
#[tactic(auto, unfolding(crate::specs::InOrder::number))]
fn keeps_itself(process: &Process, kept: u8) -> bool
    ensures { (site : ℕ) → result ≡ does_keep kept ((number process.now).tree site) }
{
    match process {
        Process::Set { var, .. } => *var != kept,
        Process::Receive { var, .. } => *var != kept,
        Process::Count { var, .. } => *var != kept,
        _ => true,
    }
}

impl Asked {
    /// Whether it is so of a process, apart from its parts.
    fn itself(self, process: &Process, kinds: &[ValueKind]) -> bool
        ensures { (site : ℕ) →
            result ≡ (asking self kinds.now).itself ((number process.now).tree site) }
    {
        match self {
            Asked::Expressions { depth } => is_within_itself(process, depth),
            Asked::Length => is_in_length_itself(process),
            Asked::Names { channels } => fits_itself(process, kinds, channels),
            Asked::Keeps { var } => keeps_itself(process, var),
        }
    }

    /// Whether it is so of a condition.
    fn condition(self, cond: &Cond, kinds: &[ValueKind]) -> bool
        ensures { result ≡ (asking self kinds.now).condition (as_test cond.now) }
    {
        match self {
            Asked::Expressions { depth } => cond.is_within(depth),
            Asked::Names { .. } => cond.fits(kinds),
            _ => true,
        }
    }

    /// Whether it is so of a guard's channel.
    fn channel(self, chan: u16, kinds: &[ValueKind]) -> bool
        ensures { result ≡ (asking self kinds.now).channel chan }
    {
        match self {
            Asked::Names { channels } => usize::from(chan) < channels,
            _ => true,
        }
    }

    /// Whether it is so of a guard's variable.
    fn variable(self, var: u8, kinds: &[ValueKind]) -> bool
        ensures { result ≡ (asking self kinds.now).variable var }
    {
        match self {
            Asked::Names { .. } => usize::from(var) < kinds.len(),
            Asked::Keeps { var: kept } => var != kept,
            _ => true,
        }
    }

    /// Whether it is so of a guard, apart from its body.
    fn guard(self, guard: &Guard, kinds: &[ValueKind]) -> bool
        ensures { result ≡
            ((asking self kinds.now).condition (as_test guard.now.cond) &&
            (asking self kinds.now).channel guard.now.chan &&
            (asking self kinds.now).variable guard.now.var) }
    {
        self.condition(&guard.cond, kinds)
            && self.channel(guard.chan, kinds)
            && self.variable(guard.var, kinds)
    }

    /// Whether it is so of the process and each process within it, in a node with variables of these kinds.
    #[cycle(everywhere)]
    #[tactic(auto, unfolding(crate::specs::InOrder::number))]
    pub(crate) fn everywhere(self, process: &Process, kinds: &[ValueKind]) -> bool
        ensures { (site : ℕ) →
            result ≡ is_everywhere (asking self kinds.now) ((number process.now).tree site) }
    {
        if !self.itself(process, kinds) {
            return false;
        }
        match process {
            Process::Seq(parts) => self.in_parts(parts, kinds),
            Process::Par(parts) => self.in_parts(parts, kinds),
            Process::If(branches) => self.in_branches(branches, kinds),
            Process::While { body, .. } => self.everywhere(body.get(), kinds),
            Process::Count { body, .. } => self.everywhere(body.get(), kinds),
            Process::Alt(guards) => self.in_guards(guards, kinds),
            _ => true,
        }
    }

    #[cycle(everywhere)]
    fn in_parts(self, parts: &Items<Process>, kinds: &[ValueKind]) -> bool
        ensures { (site : ℕ) →
            result ≡ is_in_parts (asking self kinds.now) (parts_from site (map number parts.now)) }
    {
        for part in parts.as_slice() {
            if !self.everywhere(part, kinds) {
                return false;
            }
        }
        true
    }

    #[cycle(everywhere)]
    #[tactic(auto, unfolding(crate::specs::Private::InOrder::number_branch))]
    fn in_branches(self, branches: &Items<Branch>, kinds: &[ValueKind]) -> bool
        ensures { (site : ℕ) →
            result ≡
            is_in_branches (asking self kinds.now)
            (branches_from site (map number_branch branches.now)) }
    {
        for branch in branches.as_slice() {
            if !self.in_branch(branch, kinds) {
                return false;
            }
        }
        true
    }

    #[cycle(everywhere)]
    #[tactic(auto, unfolding(crate::specs::Private::InOrder::number_branch))]
    fn in_branch(self, branch: &Branch, kinds: &[ValueKind]) -> bool
        ensures { (site : ℕ) →
            result ≡
            ((asking self kinds.now).condition (number_branch branch.now).when &&
            is_everywhere (asking self kinds.now)
            ((number_branch branch.now).then_do.tree site)) }
    {
        self.condition(&branch.cond, kinds) && self.everywhere(&branch.body, kinds)
    }

    #[cycle(everywhere)]
    fn in_guards(self, guards: &Items<Guard>, kinds: &[ValueKind]) -> bool
        ensures { (site : ℕ) →
            result ≡
            is_in_guards (asking self kinds.now)
            (guards_from site (map number_guard guards.now)) }
    {
        for guard in guards.as_slice() {
            if !self.in_guard(guard, kinds) {
                return false;
            }
        }
        true
    }

    #[cycle(everywhere)]
    #[tactic(auto, unfolding(crate::specs::Private::InOrder::number_guard))]
    fn in_guard(self, guard: &Guard, kinds: &[ValueKind]) -> bool
        ensures { (site : ℕ) →
            result ≡
            ((asking self kinds.now).condition (number_guard guard.now).when &&
            (asking self kinds.now).channel (number_guard guard.now).chan &&
            (asking self kinds.now).variable (number_guard guard.now).var &&
            is_everywhere (asking self kinds.now)
            ((number_guard guard.now).then_do.tree site)) }
    {
        self.guard(guard, kinds) && self.everywhere(&guard.body, kinds)
    }
}
