//! Processes whose variables are moved: to the number of each variable so many are added.
ghost use Rattle.std.specs.Prelude.{IfOk};
ghost use Rattle.vc_process.specs.MovedVariables.{IsMoved};
ghost use Rattle.vc_process.specs.Private.MovedVariables.{AreMoved, AreMovedBranches, IsMovedBranch, IsMovedGuard, AreMovedGuards};

use crate::condition::Cond;
use crate::copies::{boxed, push_copied};
use crate::expression::{Expr, moved_variable};
use crate::process::{Branch, Guard, Process, count_of, while_of, with_condition};
use crate::value::Value;
use sqlite_items::{Boxed, Items};
use std::alloc::Global;
use vc_packets::Memory;

#[cycle(moved)]
fn moved_process(alloc: Global, process: &Process, by: u8) -> Result<Process, Memory>
    ensures { IfOk result (λ copy. IsMoved by process.now copy) }
{
    match process {
        Process::Skip => Ok(Process::Skip),
        Process::Stop => Ok(Process::Stop),
        Process::Set { var, value } => assigned(alloc, *var, value, by),
        Process::Send { chan, value } => sent(alloc, *chan, value, by),
        Process::Receive { chan, var } => Ok(Process::Receive {
            chan: *chan,
            var: moved_variable(*var, by),
        }),
        Process::Stopch { chan } => Ok(Process::Stopch { chan: *chan }),
        Process::Seq(parts) => Ok(Process::Seq(moved_parts(alloc, parts, by)?)),
        Process::Par(parts) => Ok(Process::Par(moved_parts(alloc, parts, by)?)),
        Process::If(branches) => Ok(Process::If(moved_branches(alloc, branches, by)?)),
        Process::While { cond, body } => {
            let body = moved_body(alloc, body, by)?;
            while_of(cond.moved(alloc, by), body)
        }
        Process::Count {
            var,
            base,
            count,
            body,
        } => {
            let body = moved_body(alloc, body, by)?;
            count_of(
                moved_variable(*var, by),
                base.moved(alloc, by),
                count.moved(alloc, by),
                body,
            )
        }
        Process::Alt(guards) => Ok(Process::Alt(moved_guards(alloc, guards, by)?)),
    }
}

/// An assignment to a variable that is moved.
fn assigned(alloc: Global, var: u8, value: &Value, by: u8) -> Result<Process, Memory>
    ensures { IfOk result (λ copy. IsMoved by (Process.Set var value.now) copy) }
{
    let value = value.moved(alloc, by)?;
    Ok(Process::Set {
        var: moved_variable(var, by),
        value,
    })
}

/// An output of a value that is moved.
fn sent(alloc: Global, chan: u16, value: &Value, by: u8) -> Result<Process, Memory>
    ensures { IfOk result (λ copy. IsMoved by (Process.Send chan value.now) copy) }
{
    let value = value.moved(alloc, by)?;
    Ok(Process::Send { chan, value })
}

#[cycle(moved)]
fn moved_body(alloc: Global, body: &Boxed<Process>, by: u8) -> Result<Boxed<Process>, Memory>
    ensures { IfOk result (λ copy. IsMoved by body.now copy) }
{
    boxed(alloc, moved_process(alloc, body.get(), by))
}

#[cycle(moved)]
fn moved_parts(alloc: Global, parts: &Items<Process>, by: u8) -> Result<Items<Process>, Memory>
    ensures { IfOk result (λ copies. AreMoved by parts.now copies) }
{
    let mut copies = Items::new(alloc);
    for part in parts.as_slice() {
        if let Err(memory) = push_copied(&mut copies, moved_process(alloc, part, by)) {
            return Err(memory);
        }
    }
    Ok(copies)
}

#[cycle(moved)]
fn moved_branches(alloc: Global, branches: &Items<Branch>, by: u8) -> Result<Items<Branch>, Memory>
    ensures { IfOk result (λ copies. AreMovedBranches by branches.now copies) }
{
    let mut copies = Items::new(alloc);
    for branch in branches.as_slice() {
        let moved = moved_conditional(alloc, &branch.cond, &branch.body, by);
        if let Err(memory) = push_copied(&mut copies, moved) {
            return Err(memory);
        }
    }
    Ok(copies)
}

/// What is done under a condition.
#[cycle(moved)]
fn moved_conditional(alloc: Global, cond: &Cond, body: &Process, by: u8) -> Result<Branch, Memory>
    ensures { IfOk result (IsMovedBranch by cond.now body.now) }
{
    let cond = cond.moved(alloc, by)?;
    with_condition(cond, moved_process(alloc, body, by))
}

#[cycle(moved)]
fn moved_guards(alloc: Global, guards: &Items<Guard>, by: u8) -> Result<Items<Guard>, Memory>
    ensures { IfOk result (λ copies. AreMovedGuards by guards.now copies) }
{
    let mut copies = Items::new(alloc);
    for guard in guards.as_slice() {
        if let Err(memory) = push_copied(&mut copies, moved_guard(alloc, guard, by)) {
            return Err(memory);
        }
    }
    Ok(copies)
}

#[cycle(moved)]
fn moved_guard(alloc: Global, guard: &Guard, by: u8) -> Result<Guard, Memory>
    ensures { IfOk result (λ copy. IsMovedGuard by guard.now copy) }
{
    let Branch { cond, body } = moved_conditional(alloc, &guard.cond, &guard.body, by)?;
    Ok(Guard {
        cond,
        chan: guard.chan,
        var: moved_variable(guard.var, by),
        body,
    })
}

impl Process {
    /// The same process over other variables: to the number of each `by` is added, as a byte. Its channels stay.
    pub fn moved(&self, alloc: Global, by: u8) -> Result<Process, Memory>
        ensures { IfOk result (λ copy. IsMoved by self.now copy) }
    {
        moved_process(alloc, self, by)
    }
}
