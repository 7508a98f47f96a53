//! Whether channels and variables are used lawfully.
ghost use Rattle.std.specs.Prelude.{◌≡◌, ℕ, IfErr, MatchResult, map};
ghost use Rattle.vc_process.specs.declared.use_fault.UseFault.TheVariants as use_fault;
ghost use Rattle.vc_process.specs.InOrder.{number};
ghost use Rattle.vc_process.specs.Private.InOrder.{number_branch, number_guard};
ghost use Rattle.vc_process.specs.Lawful.{FirstOffence, FirstOfAll, FirstOfBranches, FirstOfGuards, Lawfully, LawfullyAll, LawfullyBranches, LawfullyGuards};
ghost use Rattle.vc_process.specs.Numbering.{branches_from, guards_from, parts_from, written};
ghost use Rattle.vc_process.specs.Private.Clashes.{Judges};
ghost use Rattle.vc_process.specs.Syntax.{COUNT, Exp, PAR};
ghost use Rattle.vc_process.specs.Usage.{changes as does_change};
ghost use Rattle.vc_process.specs.UseFaults.{IsUseFault};

use crate::asked::Asked;
use crate::conflicts::check_parts;
use crate::process::{Branch, Guard, Process};
use crate::use_fault::UseFault;
use sqlite_items::Items;
use std::alloc::Global;

/// Accepts exactly the processes that use channels and variables lawfully, else reports the first offender, PARs and replicated SEQs
/// taken by site: of a PAR the least channel that two parts output on, else the least that two input on, else the least variable
/// that one changes and another uses; of a replicated SEQ its index, where the body changes it (occam 2.1 manual, replication).
/// A process with lawful use is refused only when out of memory.
pub fn check_use(alloc: Global, process: &Process) -> Result<(), UseFault>
    ensures verdict { MatchResult result (λ _. Lawfully (written process.now))
        (λ fault. IsUseFault (written process.now) fault) }
    ensures exact { IfErr result (λ fault.
        Lawfully (written process.now) → fault ≡ use_fault.Memory) }
{
    check_process(alloc, process)
}

/// Whether the process changes the variable.
fn changes(process: &Process, var: u8) -> bool
    ensures { (site : ℕ) → result ≡ does_change ((number process.now).tree site) var }
{
    let asked = Asked::Keeps { var };
    !asked.everywhere(process, &[])
}

#[cycle(check)]
#[tactic(auto, unfolding(crate::specs::InOrder::number, crate::specs::Private::InOrder::number_branch, crate::specs::Private::InOrder::number_guard))]
fn check_process(alloc: Global, process: &Process) -> Result<(), UseFault>
    ensures { (site : ℕ) →
        Judges result (Lawfully ((number process.now).tree site))
        (FirstOffence ((number process.now).tree site)) }
{
    match process {
        Process::Seq(parts) => check_all(alloc, parts),
        Process::Par(parts) => check_par(alloc, parts),
        Process::If(branches) => check_branches(alloc, branches),
        Process::While { body, .. } => check_process(alloc, body.get()),
        Process::Count { var, body, .. } => check_count(alloc, *var, body.get()),
        Process::Alt(guards) => check_guards(alloc, guards),
        _ => Ok(()),
    }
}

#[cycle(check)]
fn check_par(alloc: Global, parts: &Items<Process>) -> Result<(), UseFault>
    ensures { (i site : ℕ) →
        Judges result (Lawfully (PAR i (parts_from site (map number parts.now))))
        (FirstOffence (PAR i (parts_from site (map number parts.now)))) }
{
    if let Err(fault) = check_parts(alloc, parts) {
        return Err(fault);
    }
    check_all(alloc, parts)
}

#[cycle(check)]
fn check_count(alloc: Global, var: u8, body: &Process) -> Result<(), UseFault>
    ensures { (i site : ℕ) (a n : Exp) →
        Judges result (Lawfully (COUNT i var a n ((number body.now).tree site)))
        (FirstOffence (COUNT i var a n ((number body.now).tree site))) }
{
    if changes(body, var) {
        return Err(UseFault::Var(var));
    }
    check_process(alloc, body)
}

#[cycle(check)]
fn check_all(alloc: Global, parts: &Items<Process>) -> Result<(), UseFault>
    ensures { (site : ℕ) →
        Judges result (LawfullyAll (parts_from site (map number parts.now)))
        (FirstOfAll (parts_from site (map number parts.now))) }
{
    for part in parts.as_slice() {
        if let Err(fault) = check_process(alloc, part) {
            return Err(fault);
        }
    }
    Ok(())
}

#[cycle(check)]
fn check_branches(alloc: Global, branches: &Items<Branch>) -> Result<(), UseFault>
    ensures { (site : ℕ) →
        Judges result (LawfullyBranches (branches_from site (map number_branch branches.now)))
        (FirstOfBranches (branches_from site (map number_branch branches.now))) }
{
    for branch in branches.as_slice() {
        if let Err(fault) = check_process(alloc, &branch.body) {
            return Err(fault);
        }
    }
    Ok(())
}

#[cycle(check)]
fn check_guards(alloc: Global, guards: &Items<Guard>) -> Result<(), UseFault>
    ensures { (site : ℕ) →
        Judges result (LawfullyGuards (guards_from site (map number_guard guards.now)))
        (FirstOfGuards (guards_from site (map number_guard guards.now))) }
{
    for guard in guards.as_slice() {
        if let Err(fault) = check_process(alloc, &guard.body) {
            return Err(fault);
        }
    }
    Ok(())
}
