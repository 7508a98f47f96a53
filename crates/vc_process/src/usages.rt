//! What processes use, one use after another.
ghost use Rattle.std.specs.Prelude.{◌≡◌, [], ◌∷◌, ◌++◌, ℕ, OnOk, map};
ghost use Rattle.vc_process.specs.declared.used.Used.TheVariants as of;
ghost use Rattle.vc_process.specs.InOrder.{number};
ghost use Rattle.vc_process.specs.Private.InOrder.{number_branch, number_guard};
ghost use Rattle.vc_process.specs.Numbering.{branches_from, guards_from, parts_from};
ghost use Rattle.vc_process.specs.Terms.{exp, given, as_test};
ghost use Rattle.vc_process.specs.Private.Usages.{changing as as_changing, exp_usages, given_usages, input_usages, reading as as_reading, test_usages, usages, usages_of_branches, usages_of_guards, usages_of_parts};

use crate::bytes_expression::BytesExpr;
use crate::condition::Cond;
use crate::expression::Expr;
use crate::process::{Branch, Guard, Process};
use crate::used::{Usage, Used};
use crate::value::Value;
use sqlite_items::Items;
use vc_packets::Memory;

/// Adds that something is communicated on the channel, or that the variable is changed.
fn push_changing(uses: &mut Items<Usage>, used: Used) -> Result<(), Memory>
    ensures { OnOk result (uses.new ≡ uses.old ++ as_changing used ∷ []) }
{
    uses.push(Usage { used, reads: false })?;
    Ok(())
}

/// Adds that the variable is in an expression.
fn push_reading(uses: &mut Items<Usage>, var: u8) -> Result<(), Memory>
    ensures { OnOk result (uses.new ≡ uses.old ++ as_reading var ∷ []) }
{
    uses.push(Usage {
        used: Used::Variable(var),
        reads: true,
    })?;
    Ok(())
}

/// Adds the uses of an expression.
#[tactic(auto, unfolding(crate::specs::Terms::exp))]
fn push_expression(uses: &mut Items<Usage>, expression: &Expr) -> Result<(), Memory>
    ensures { OnOk result (uses.new ≡ uses.old ++ exp_usages (exp expression.now)) }
{
    match expression {
        Expr::Num(_) => Ok(()),
        Expr::Var(var) => push_reading(uses, *var),
        Expr::Size(var) => push_reading(uses, *var),
        Expr::Bin { left, right, .. } => {
            push_expression(uses, left.get())?;
            push_expression(uses, right.get())
        }
    }
}

/// Adds the uses of two expressions.
fn push_expressions(uses: &mut Items<Usage>, left: &Expr, right: &Expr) -> Result<(), Memory>
    ensures { OnOk result
        (uses.new ≡ uses.old ++ (exp_usages (exp left.now) ++ exp_usages (exp right.now))) }
{
    push_expression(uses, left)?;
    push_expression(uses, right)
}

/// Adds the uses of a condition.
#[tactic(auto, unfolding(crate::specs::Terms::as_test))]
fn push_condition(uses: &mut Items<Usage>, cond: &Cond) -> Result<(), Memory>
    ensures { OnOk result (uses.new ≡ uses.old ++ test_usages (as_test cond.now)) }
{
    match cond {
        Cond::Always(_) => Ok(()),
        Cond::Cmp { left, right, .. } => push_expressions(uses, left, right),
        Cond::And(left, right) => {
            push_condition(uses, left.get())?;
            push_condition(uses, right.get())
        }
        Cond::Or(left, right) => {
            push_condition(uses, left.get())?;
            push_condition(uses, right.get())
        }
        Cond::Not(cond) => push_condition(uses, cond.get()),
    }
}

/// Adds the uses of what is assigned or output.
fn push_value(uses: &mut Items<Usage>, value: &Value) -> Result<(), Memory>
    ensures { OnOk result (uses.new ≡ uses.old ++ given_usages (given value.now)) }
{
    match value {
        Value::Int(number) => push_expression(uses, number),
        Value::Bytes(BytesExpr::Lit(_)) => Ok(()),
        Value::Bytes(BytesExpr::Var(var)) => push_reading(uses, *var),
        Value::Bytes(BytesExpr::Fill { .. }) => Ok(()),
    }
}

/// Adds the uses of an assignment or an output.
fn push_given(uses: &mut Items<Usage>, used: Used, value: &Value) -> Result<(), Memory>
    ensures { OnOk result
        (uses.new ≡ uses.old ++ (as_changing used ∷ given_usages (given value.now))) }
{
    push_changing(uses, used)?;
    push_value(uses, value)
}

/// Adds the uses of an input.
fn push_input(uses: &mut Items<Usage>, chan: u16, var: u8) -> Result<(), Memory>
    ensures { OnOk result (uses.new ≡ uses.old ++ input_usages chan var) }
{
    push_changing(uses, Used::Input(chan))?;
    push_changing(uses, Used::Variable(var))
}

/// Adds the uses of a replicated SEQ, apart from its body.
fn push_count(uses: &mut Items<Usage>, var: u8, base: &Expr, count: &Expr) -> Result<(), Memory>
    ensures { OnOk result
        (uses.new ≡
        uses.old ++
        (as_changing (of.Variable var) ∷
        exp_usages (exp base.now) ++
        exp_usages (exp count.now))) }
{
    push_changing(uses, Used::Variable(var))?;
    push_expressions(uses, base, count)
}

/// Adds the uses of a process and of its parts, in order of site.
#[cycle(usages)]
#[tactic(auto, unfolding(crate::specs::InOrder::number, crate::specs::Private::InOrder::number_branch, crate::specs::Private::InOrder::number_guard))]
pub(crate) fn push_usages(uses: &mut Items<Usage>, process: &Process) -> Result<(), Memory>
    ensures { OnOk result
        ((site : ℕ) → uses.new ≡ uses.old ++ usages ((number process.now).tree site)) }
{
    match process {
        Process::Set { var, value } => push_given(uses, Used::Variable(*var), value),
        Process::Send { chan, value } => push_given(uses, Used::Output(*chan), value),
        Process::Receive { chan, var } => push_input(uses, *chan, *var),
        Process::Stopch { chan } => push_changing(uses, Used::Input(*chan)),
        Process::Seq(parts) => push_parts(uses, parts),
        Process::Par(parts) => push_parts(uses, parts),
        Process::If(branches) => push_branches(uses, branches),
        Process::While { cond, body } => push_conditional(uses, cond, body.get()),
        Process::Count {
            var,
            base,
            count,
            body,
        } => {
            push_count(uses, *var, base, count)?;
            push_usages(uses, body.get())
        }
        Process::Alt(guards) => push_guards(uses, guards),
        _ => Ok(()),
    }
}

#[cycle(usages)]
fn push_parts(uses: &mut Items<Usage>, parts: &Items<Process>) -> Result<(), Memory>
    ensures { OnOk result
        ((site : ℕ) →
        uses.new ≡ uses.old ++ usages_of_parts (parts_from site (map number parts.now))) }
{
    for part in parts.as_slice() {
        if let Err(memory) = push_usages(uses, part) {
            return Err(memory);
        }
    }
    Ok(())
}

#[cycle(usages)]
fn push_branches(uses: &mut Items<Usage>, branches: &Items<Branch>) -> Result<(), Memory>
    ensures { OnOk result
        ((site : ℕ) →
        uses.new ≡
        uses.old ++
        usages_of_branches (branches_from site (map number_branch branches.now))) }
{
    for branch in branches.as_slice() {
        if let Err(memory) = push_conditional(uses, &branch.cond, &branch.body) {
            return Err(memory);
        }
    }
    Ok(())
}

/// Adds the uses of a condition and of what is done under it.
#[cycle(usages)]
fn push_conditional(uses: &mut Items<Usage>, cond: &Cond, body: &Process) -> Result<(), Memory>
    ensures { OnOk result
        ((site : ℕ) →
        uses.new ≡
        uses.old ++
        (test_usages (as_test cond.now) ++ usages ((number body.now).tree site))) }
{
    push_condition(uses, cond)?;
    push_usages(uses, body)
}

#[cycle(usages)]
fn push_guards(uses: &mut Items<Usage>, guards: &Items<Guard>) -> Result<(), Memory>
    ensures { OnOk result
        ((site : ℕ) →
        uses.new ≡
        uses.old ++ usages_of_guards (guards_from site (map number_guard guards.now))) }
{
    for guard in guards.as_slice() {
        if let Err(memory) = push_guarded(uses, guard) {
            return Err(memory);
        }
    }
    Ok(())
}

#[cycle(usages)]
#[tactic(auto, unfolding(crate::specs::InOrder::number, crate::specs::Private::InOrder::number_branch, crate::specs::Private::InOrder::number_guard))]
fn push_guarded(uses: &mut Items<Usage>, guard: &Guard) -> Result<(), Memory>
    ensures { OnOk result
        ((site : ℕ) →
        uses.new ≡
        uses.old ++
        ((input_usages (number_guard guard.now).chan (number_guard guard.now).var ++
        test_usages (number_guard guard.now).when) ++
        usages ((number_guard guard.now).then_do.tree site))) }
{
    push_input(uses, guard.chan, guard.var)?;
    push_conditional(uses, &guard.cond, &guard.body)
}
