//! Processes, as they are written.
ghost use Rattle.std.specs.Prelude.{◌≡◌, IfOk, Ok};
ghost use Rattle.std.specs.Result.{IsOkAnd};

use crate::condition::Cond;
use crate::copies::{boxed, push_copied};
use crate::expression::Expr;
use crate::value::Value;
use sqlite_items::{Boxed, Items};
use std::alloc::Global;
use vc_packets::Memory;

/// A process of occam 2.1, over channels and variables by their numbers. Its site, and that of each process within it, is its
/// number in preorder, from 0.
#[cycle(process)]
#[derive(Drop)]
pub enum Process {
    /// SKIP ends.
    Skip,
    /// STOP never goes on.
    Stop,
    /// An assignment.
    Set {
        /// The variable that is changed.
        var: u8,
        /// What it holds from then on.
        value: Value,
    },
    /// An output.
    Send {
        /// The channel.
        chan: u16,
        /// The message.
        value: Value,
    },
    /// An input.
    Receive {
        /// The channel.
        chan: u16,
        /// The variable that takes the message.
        var: u8,
    },
    /// No message is taken on the channel from here on (profile).
    Stopch {
        /// The channel.
        chan: u16,
    },
    /// SEQ: the parts run in order. With none it is SKIP.
    Seq(Items<Process>),
    /// PAR: the parts run side by side, and it ends when all have ended. With none it is SKIP.
    Par(Items<Process>),
    /// IF: the first branch whose condition is true. With none it is STOP.
    If(Items<Branch>),
    /// WHILE: the body, as long as the condition is true.
    While {
        /// What is tested before each turn.
        cond: Cond,
        /// What a turn does.
        body: Boxed<Process>,
    },
    /// A replicated SEQ: the body for each index from `base` on, `count` times.
    Count {
        /// The index.
        var: u8,
        /// The first index.
        base: Expr,
        /// How many turns there are.
        count: Expr,
        /// What a turn does.
        body: Boxed<Process>,
    },
    /// ALT: one guard whose channel is ready and whose condition is true. With none it is STOP.
    Alt(Items<Guard>),
}

/// A branch of an IF.
#[cycle(process)]
#[derive(Drop)]
pub struct Branch {
    /// What is tested.
    pub cond: Cond,
    /// What is done where it is true.
    pub body: Process,
}

/// A guard of an ALT, with its body.
#[cycle(process)]
#[derive(Drop)]
pub struct Guard {
    /// Whether the guard may be taken.
    pub cond: Cond,
    /// The channel that is input on.
    pub chan: u16,
    /// The variable that takes the message.
    pub var: u8,
    /// What is done then.
    pub body: Process,
}

#[cycle(copy)]
fn copy_process(alloc: Global, process: &Process) -> Result<Process, Memory>
    ensures { IfOk result (λ copy. copy ≡ process.now) }
{
    match process {
        Process::Skip => Ok(Process::Skip),
        Process::Stop => Ok(Process::Stop),
        Process::Set { var, value } => assigned(alloc, *var, value),
        Process::Send { chan, value } => sent(alloc, *chan, value),
        Process::Receive { chan, var } => Ok(Process::Receive {
            chan: *chan,
            var: *var,
        }),
        Process::Stopch { chan } => Ok(Process::Stopch { chan: *chan }),
        Process::Seq(parts) => copy_parts(alloc, parts).map(Process::Seq),
        Process::Par(parts) => copy_parts(alloc, parts).map(Process::Par),
        Process::If(branches) => copy_branches(alloc, branches).map(Process::If),
        Process::While { cond, body } => {
            let body = copy_body(alloc, body)?;
            while_of(cond.copy(alloc), body)
        }
        Process::Count {
            var,
            base,
            count,
            body,
        } => {
            let body = copy_body(alloc, body)?;
            count_of(*var, base.copy(alloc), count.copy(alloc), body)
        }
        Process::Alt(guards) => copy_guards(alloc, guards).map(Process::Alt),
    }
}

/// An assignment of an equal value.
fn assigned(alloc: Global, var: u8, value: &Value) -> Result<Process, Memory>
    ensures { IfOk result (λ copy. copy ≡ Process.Set var value.now) }
{
    let value = value.copy(alloc)?;
    Ok(Process::Set { var, value })
}

/// An output of an equal value.
fn sent(alloc: Global, chan: u16, value: &Value) -> Result<Process, Memory>
    ensures { IfOk result (λ copy. copy ≡ Process.Send chan value.now) }
{
    let value = value.copy(alloc)?;
    Ok(Process::Send { chan, value })
}

/// A WHILE, unless its condition could not be copied.
pub(crate) fn while_of(cond: Result<Cond, Memory>, body: Boxed<Process>) -> Result<Process, Memory>
    ensures { IfOk result (λ made. IsOkAnd cond (λ test. made ≡ Process.While test body)) }
{
    let cond = cond?;
    Ok(Process::While { cond, body })
}

/// A replicated SEQ, unless its base or its count could not be copied.
pub(crate) fn count_of(
    var: u8,
    base: Result<Expr, Memory>,
    count: Result<Expr, Memory>,
    body: Boxed<Process>,
) -> Result<Process, Memory>
    ensures { IfOk result (λ made. IsOkAnd base (λ first. IsOkAnd count (λ turns.
        made ≡ Process.Count var first turns body))) }
{
    let base = base?;
    let count = count?;
    Ok(Process::Count {
        var,
        base,
        count,
        body,
    })
}

#[cycle(copy)]
fn copy_body(alloc: Global, body: &Boxed<Process>) -> Result<Boxed<Process>, Memory>
    ensures { IfOk result (λ copy. copy ≡ body.now) }
{
    boxed(alloc, copy_process(alloc, body.get()))
}

#[cycle(copy)]
fn copy_parts(alloc: Global, parts: &Items<Process>) -> Result<Items<Process>, Memory>
    ensures { IfOk result (λ copies. copies ≡ parts.now) }
{
    let mut copies = Items::new(alloc);
    for part in parts.as_slice() {
        if let Err(memory) = push_copied(&mut copies, copy_process(alloc, part)) {
            return Err(memory);
        }
    }
    Ok(copies)
}

#[cycle(copy)]
fn copy_branches(alloc: Global, branches: &Items<Branch>) -> Result<Items<Branch>, Memory>
    ensures { IfOk result (λ copies. copies ≡ branches.now) }
{
    let mut copies = Items::new(alloc);
    for branch in branches.as_slice() {
        let copied = copy_conditional(alloc, &branch.cond, &branch.body);
        if let Err(memory) = push_copied(&mut copies, copied) {
            return Err(memory);
        }
    }
    Ok(copies)
}

/// What is done under a condition.
#[cycle(copy)]
fn copy_conditional(alloc: Global, cond: &Cond, body: &Process) -> Result<Branch, Memory>
    ensures { IfOk result (λ copy. (copy.cond ≡ cond.now) × (copy.body ≡ body.now)) }
{
    let cond = cond.copy(alloc)?;
    with_condition(cond, copy_process(alloc, body))
}

/// What is done under the condition, unless it could not be copied.
pub(crate) fn with_condition(cond: Cond, body: Result<Process, Memory>) -> Result<Branch, Memory>
    ensures { IfOk result (λ copy. (copy.cond ≡ cond) × (body ≡ Ok copy.body)) }
{
    let body = body?;
    Ok(Branch { cond, body })
}

#[cycle(copy)]
fn copy_guards(alloc: Global, guards: &Items<Guard>) -> Result<Items<Guard>, Memory>
    ensures { IfOk result (λ copies. copies ≡ guards.now) }
{
    let mut copies = Items::new(alloc);
    for guard in guards.as_slice() {
        if let Err(memory) = push_copied(&mut copies, copy_guard(alloc, guard)) {
            return Err(memory);
        }
    }
    Ok(copies)
}

#[cycle(copy)]
fn copy_guard(alloc: Global, guard: &Guard) -> Result<Guard, Memory>
    ensures { IfOk result (λ copy. copy ≡ guard.now) }
{
    let Branch { cond, body } = copy_conditional(alloc, &guard.cond, &guard.body)?;
    Ok(Guard {
        cond,
        chan: guard.chan,
        var: guard.var,
        body,
    })
}

impl Process {
    /// An equal process.
    pub fn copy(&self, alloc: Global) -> Result<Process, Memory>
        ensures { IfOk result (λ copy. copy ≡ self.now) }
    {
        copy_process(alloc, self)
    }
}
