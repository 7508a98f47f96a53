//! How a process uses channels.
ghost use Rattle.std.specs.Prelude.{◌≡◌, [], ◌∷◌, ◌++◌, ℕ, true, Some, OnOk, map};
ghost use Rattle.vc_process.specs.ChannelUses.{channel_uses, guard_uses, inputs_on, uses_of_all, uses_of_bodies, uses_of_branches};
ghost use Rattle.vc_process.specs.InOrder.{number};
ghost use Rattle.vc_process.specs.Private.InOrder.{number_branch, number_guard};
ghost use Rattle.vc_process.specs.Numbering.{branches_from, guards_from, parts_from};

use crate::channel_use::ChannelUse;
use crate::limits::kind_at;
use crate::process::{Branch, Guard, Process};
use crate::value_kind::ValueKind;
use sqlite_items::Items;
use vc_packets::Memory;

/// Adds the uses of a process whose node has variables of these kinds, in order of site.
#[cycle(uses)]
#[tactic(auto, unfolding(crate::specs::InOrder::number, crate::specs::Private::InOrder::number_branch, crate::specs::Private::InOrder::number_guard))]
pub(crate) fn push_uses(
    uses: &mut Items<ChannelUse>,
    process: &Process,
    kinds: &[ValueKind],
) -> Result<(), Memory>
    ensures { OnOk result
        ((site : ℕ) →
        uses.new ≡ uses.old ++ channel_uses kinds.now ((number process.now).tree site)) }
{
    match process {
        Process::Send { chan, value } => push_output(uses, *chan, value.kind()),
        Process::Receive { chan, var } => push_input(uses, *chan, kind_at(kinds, *var)),
        Process::Stopch { chan } => push_input(uses, *chan, None),
        Process::Seq(parts) => push_parts(uses, parts, kinds),
        Process::Par(parts) => push_parts(uses, parts, kinds),
        Process::If(branches) => push_branches(uses, branches, kinds),
        Process::While { body, .. } => push_uses(uses, body.get(), kinds),
        Process::Count { body, .. } => push_uses(uses, body.get(), kinds),
        Process::Alt(guards) => push_alternatives(uses, guards, kinds),
        _ => Ok(()),
    }
}

/// Adds an output.
fn push_output(uses: &mut Items<ChannelUse>, chan: u16, kind: ValueKind) -> Result<(), Memory>
    ensures { OnOk result
        (uses.new ≡ uses.old ++ record { chan = chan; is_output = true; kind = Some kind } ∷ []) }
{
    uses.push(ChannelUse {
        chan,
        is_output: true,
        kind: Some(kind),
    })?;
    Ok(())
}

/// Adds an input, a guard or a stop of a channel.
fn push_input(
    uses: &mut Items<ChannelUse>,
    chan: u16,
    kind: Option<ValueKind>,
) -> Result<(), Memory>
    ensures { OnOk result (uses.new ≡ uses.old ++ inputs_on chan kind ∷ []) }
{
    uses.push(ChannelUse {
        chan,
        is_output: false,
        kind,
    })?;
    Ok(())
}

#[cycle(uses)]
#[tactic(auto, unfolding(crate::specs::InOrder::number, crate::specs::Private::InOrder::number_branch, crate::specs::Private::InOrder::number_guard))]
fn push_parts(
    uses: &mut Items<ChannelUse>,
    parts: &Items<Process>,
    kinds: &[ValueKind],
) -> Result<(), Memory>
    ensures { OnOk result
        ((site : ℕ) →
        uses.new ≡ uses.old ++ uses_of_all kinds.now (parts_from site (map number parts.now))) }
{
    for part in parts.as_slice() {
        push_uses(uses, part, kinds)?;
    }
    Ok(())
}

#[cycle(uses)]
#[tactic(auto, unfolding(crate::specs::InOrder::number, crate::specs::Private::InOrder::number_branch, crate::specs::Private::InOrder::number_guard))]
fn push_branches(
    uses: &mut Items<ChannelUse>,
    branches: &Items<Branch>,
    kinds: &[ValueKind],
) -> Result<(), Memory>
    ensures { OnOk result
        ((site : ℕ) →
        uses.new ≡
        uses.old ++
        uses_of_branches kinds.now
        (branches_from site (map number_branch branches.now))) }
{
    for branch in branches.as_slice() {
        push_uses(uses, &branch.body, kinds)?;
    }
    Ok(())
}

#[cycle(uses)]
#[tactic(auto, unfolding(crate::specs::InOrder::number, crate::specs::Private::InOrder::number_branch, crate::specs::Private::InOrder::number_guard))]
fn push_bodies(
    uses: &mut Items<ChannelUse>,
    guards: &Items<Guard>,
    kinds: &[ValueKind],
) -> Result<(), Memory>
    ensures { OnOk result
        ((site : ℕ) →
        uses.new ≡
        uses.old ++
        uses_of_bodies kinds.now (guards_from site (map number_guard guards.now))) }
{
    for guard in guards.as_slice() {
        push_uses(uses, &guard.body, kinds)?;
    }
    Ok(())
}

/// Adds the uses of an ALT: those of its guards, which belong to its own site, and those of their bodies.
#[cycle(uses)]
fn push_alternatives(
    uses: &mut Items<ChannelUse>,
    guards: &Items<Guard>,
    kinds: &[ValueKind],
) -> Result<(), Memory>
    ensures { OnOk result
        ((site : ℕ) →
        uses.new ≡
        uses.old ++
        (guard_uses kinds.now (guards_from site (map number_guard guards.now)) ++
        uses_of_bodies kinds.now
        (guards_from site (map number_guard guards.now)))) }
{
    push_guards(uses, guards, kinds)?;
    push_bodies(uses, guards, kinds)
}

/// The guards of an ALT belong to its own site.
fn push_guards(
    uses: &mut Items<ChannelUse>,
    guards: &Items<Guard>,
    kinds: &[ValueKind],
) -> Result<(), Memory>
    ensures { OnOk result
        ((site : ℕ) →
        uses.new ≡
        uses.old ++ guard_uses kinds.now (guards_from site (map number_guard guards.now))) }
{
    for guard in guards.as_slice() {
        push_input(uses, guard.chan, kind_at(kinds, guard.var))?;
    }
    Ok(())
}
