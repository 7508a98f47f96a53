//! How a tree of frames is made of a process, which begins.
ghost use Rattle.std.specs.Prelude.{◌≡◌, ◌+◌, ◌≤◌, ◌<◌, IfOk, None, OnOk, false, map, true};
ghost use Rattle.vc_occam.specs.Frames.{counting, looping, view};
ghost use Rattle.vc_process.specs.Terms.{as_test, exp};
ghost use Rattle.vc_occam.specs.Private.Frames.{shape, unstopped};
ghost use Rattle.vc_occam.specs.Private.Wholes.{Begins, is_alone, sites_of_guards};
ghost use Rattle.vc_process.specs.InOrder.{number};
ghost use Rattle.vc_process.specs.Private.InOrder.{number_branch, number_guard};
ghost use Rattle.vc_process.specs.Numbering.{branch_sites, branches_from, guards_from, part_sites, parts_from};
ghost use Rattle.vc_process.specs.Syntax.{ALT, IF, PAR, SEQ};
ghost use Rattle.vc_occam.specs.declared.outcome.Outcome.TheVariants.{Quiet};

use crate::frame::{
    Alt, Assignment, Branch, Choice, Construct, Count, Frame, Guard, If, Input, Output, Par, Seq,
    Task, While,
};
use crate::outcome::Outcome;
use sqlite_items::Items;
use std::alloc::Global;
use vc_packets::Memory;
use vc_process::{Branch as WrittenBranch, Cond, Expr, Guard as WrittenGuard, Process};

/// A process that begins, its sites being numbered from `next` on, which is then the first site after them.
#[cycle(framing)]
#[tactic(auto, unfolding(vc_process::specs::InOrder::number, vc_process::specs::Private::InOrder::number_branch, vc_process::specs::Private::InOrder::number_guard))]
pub(crate) fn task_of(
    alloc: Global,
    process: &Process,
    next: &mut u32,
) -> Result<Task<Frame>, Memory>
    requires sites { next.old + (number process.now).sites ≤ 65536 }
    ensures made { IfOk result (λ task. Begins task ((number process.now).tree next.old)) }
    ensures next { OnOk result (next.new ≡ next.old + (number process.now).sites) }
{
    let site = *next as u16;
    *next += 1;
    match process {
        Process::Seq(parts) => seq_of(alloc, site, parts, next),
        Process::Par(parts) => par_of(alloc, site, parts, next),
        Process::If(branches) => if_of(alloc, site, branches, next),
        Process::While { cond, body } => {
            let body = task_of(alloc, body.get(), next)?.frame;
            while_task(alloc, site, cond, body)
        }
        Process::Count {
            var,
            base,
            count,
            body,
        } => {
            let body = task_of(alloc, body.get(), next)?.frame;
            count_task(alloc, site, *var, base, count, body)
        }
        Process::Alt(guards) => alt_of(alloc, site, guards, next),
        _ => task_alone(alloc, site, process),
    }
}

/// A frame with its site.
fn task(site: u16, construct: Construct<Frame>, begins: Outcome) -> Task<Frame>
    ensures frame { view result.frame ≡ unstopped site (shape construct) }
    ensures begins { result.begins ≡ begins }
{
    Task {
        frame: Frame {
            site,
            stopped: false,
            construct,
        },
        begins,
    }
}

/// One that begins with a step of its own site.
fn quiet_task(site: u16, construct: Construct<Frame>) -> Task<Frame>
    ensures frame { view result.frame ≡ unstopped site (shape construct) }
    ensures begins { result.begins ≡ Quiet site }
{
    task(site, construct, Outcome::Quiet { site })
}

/// A WHILE that begins, with this body.
fn while_task(alloc: Global, site: u16, cond: &Cond, body: Frame) -> Result<Task<Frame>, Memory>
    ensures frame { IfOk result (λ task.
        view task.frame ≡ unstopped site (looping (as_test cond.now) (view body) false)) }
    ensures begins { IfOk result (λ task. task.begins ≡ Quiet site) }
{
    let looping = While {
        cond: cond.copy(alloc)?,
        body: Box::new(alloc, body)?,
        turning: false,
    };
    Ok(quiet_task(site, Construct::While(looping)))
}

/// A replicated SEQ that begins, with this body.
fn count_task(
    alloc: Global,
    site: u16,
    var: u8,
    base: &Expr,
    count: &Expr,
    body: Frame,
) -> Result<Task<Frame>, Memory>
    ensures frame { IfOk result (λ task.
        view task.frame ≡
        unstopped site (counting var (exp base.now) (exp count.now) (view body) None)) }
    ensures begins { IfOk result (λ task. task.begins ≡ Quiet site) }
{
    let counting = Count {
        var,
        base: base.copy(alloc)?,
        count: count.copy(alloc)?,
        body: Box::new(alloc, body)?,
        turn: None,
    };
    Ok(quiet_task(site, Construct::Count(counting)))
}

/// A process without parts that begins.
#[tactic(auto, unfolding(vc_process::specs::InOrder::number))]
fn task_alone(alloc: Global, site: u16, process: &Process) -> Result<Task<Frame>, Memory>
    requires alone { is_alone process.now ≡ true }
    ensures made { IfOk result (λ task. Begins task ((number process.now).tree site)) }
{
    match process {
        Process::Skip => Ok(quiet_task(site, Construct::Skip)),
        Process::Stop => Ok(task(site, Construct::Stop, Outcome::Nothing)),
        Process::Set { var, value } => {
            let set = Assignment {
                var: *var,
                value: value.copy(alloc)?,
            };
            let begins = set.begins(site);
            Ok(task(site, Construct::Set(set), begins))
        }
        Process::Send { chan, value } => {
            let output = Output {
                chan: *chan,
                value: value.copy(alloc)?,
                begun: false,
            };
            Ok(task(site, Construct::Send(output), Outcome::Other))
        }
        Process::Receive { chan, var } => {
            let input = Input {
                chan: *chan,
                var: *var,
                begun: false,
            };
            Ok(task(site, Construct::Receive(input), Outcome::Other))
        }
        Process::Stopch { chan } => {
            Ok(task(site, Construct::Stopch { chan: *chan }, Outcome::Other))
        }
        Process::Seq(_) | Process::Par(_) | Process::If(_) => unreachable!(),
        Process::While { .. } | Process::Count { .. } | Process::Alt(_) => unreachable!(),
    }
}

/// A SEQ that begins, with its first part.
#[cycle(framing)]
fn seq_of(
    alloc: Global,
    site: u16,
    written: &Items<Process>,
    next: &mut u32,
) -> Result<Task<Frame>, Memory>
    requires sites { next.old + part_sites (map number written.now) ≤ 65536 }
    ensures made { IfOk result (λ task.
        Begins task (SEQ site (parts_from next.old (map number written.now)))) }
    ensures next { OnOk result (next.new ≡ next.old + part_sites (map number written.now)) }
{
    let mut parts = Vec::new(alloc);
    let mut begins = Outcome::Quiet { site };
    for part in written.as_slice() {
        let made = task_of(alloc, part, next)?;
        if parts.is_empty() {
            begins = made.begins;
        }
        parts.push(made.frame)?;
    }
    if parts.is_empty() {
        return Ok(task(site, Construct::EmptySeq, begins));
    }
    Ok(task(site, Construct::Seq(Seq { parts, at: 0 }), begins))
}

/// A PAR that begins, with all its parts.
#[cycle(framing)]
fn par_of(
    alloc: Global,
    site: u16,
    written: &Items<Process>,
    next: &mut u32,
) -> Result<Task<Frame>, Memory>
    requires sites { next.old + part_sites (map number written.now) ≤ 65536 }
    ensures made { IfOk result (λ task.
        Begins task (PAR site (parts_from next.old (map number written.now)))) }
    ensures next { OnOk result (next.new ≡ next.old + part_sites (map number written.now)) }
{
    let mut tasks = Vec::new(alloc);
    for part in written.as_slice() {
        tasks.push(task_of(alloc, part, next)?)?;
    }
    if tasks.is_empty() {
        return Ok(quiet_task(site, Construct::EmptyPar));
    }
    Ok(task(site, Construct::Par(Par { tasks }), Outcome::Other))
}

/// An IF that begins.
#[cycle(framing)]
#[tactic(auto, unfolding(vc_process::specs::InOrder::number, vc_process::specs::Private::InOrder::number_branch))]
fn if_of(
    alloc: Global,
    site: u16,
    written: &Items<WrittenBranch>,
    next: &mut u32,
) -> Result<Task<Frame>, Memory>
    requires sites { next.old + branch_sites (map number_branch written.now) ≤ 65536 }
    ensures made { IfOk result (λ task.
        Begins task (IF site (branches_from next.old (map number_branch written.now)))) }
    ensures next { OnOk result
        (next.new ≡ next.old + branch_sites (map number_branch written.now)) }
{
    let mut branches = Vec::new(alloc);
    for branch in written.as_slice() {
        let cond = branch.cond.copy(alloc)?;
        let body = task_of(alloc, &branch.body, next)?.frame;
        branches.push(Branch { cond, body })?;
    }
    let branching = If {
        branches,
        taken: None,
    };
    Ok(quiet_task(site, Construct::If(branching)))
}

/// An ALT that begins.
#[cycle(framing)]
#[tactic(auto, unfolding(vc_process::specs::InOrder::number, vc_process::specs::Private::InOrder::number_guard))]
fn alt_of(
    alloc: Global,
    site: u16,
    written: &Items<WrittenGuard>,
    next: &mut u32,
) -> Result<Task<Frame>, Memory>
    requires sites { next.old + sites_of_guards written.now ≤ 65536 }
    requires behind { 0 < next.old }
    ensures made { IfOk result (λ task.
        Begins task (ALT site (guards_from next.old (map number_guard written.now)))) }
    ensures next { OnOk result (next.new ≡ next.old + sites_of_guards written.now) }
{
    let mut guards = Vec::new(alloc);
    for guard in written.as_slice() {
        let cond = guard.cond.copy(alloc)?;
        let body = task_of(alloc, &guard.body, next)?.frame;
        guards.push(Guard {
            cond,
            chan: guard.chan,
            var: guard.var,
            body,
        })?;
    }
    let alt = Alt {
        guards,
        choice: Choice::Open,
    };
    Ok(task(site, Construct::Alt(alt), Outcome::Other))
}
