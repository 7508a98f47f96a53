//! What parts side by side share that they may not.
ghost use Rattle.std.specs.Prelude.{◌≡◌, ◌++◌, ◌↔◌, ◌⊎◌, ℕ, IsTrue, IfOk, OnOk, map};
ghost use Rattle.std.specs.List.Sorted.{IsPermutation};
ghost use Rattle.vc_process.specs.InOrder.{number};
ghost use Rattle.vc_process.specs.Lawful.{Offends, SideBySide};
ghost use Rattle.vc_process.specs.Numbering.{parts_from};
ghost use Rattle.vc_process.specs.Private.Clashes.{Ascending, Clashes, IsFirstClash, Judges, fault_of};
ghost use Rattle.vc_process.specs.Private.Usages.{by_part, part_usages, usages};

use crate::process::Process;
use crate::usages::push_usages;
use crate::use_fault::UseFault;
use crate::used::{PartUsage, Usage, Used};
use sqlite_items::Items;
use std::alloc::Global;
use vc_packets::Memory;

/// Adds the uses of the part at this place.
fn push_part(uses: &mut Vec<PartUsage>, own: &[Usage], part: usize) -> Result<(), Memory>
    ensures { OnOk result (uses.new.items ≡ uses.old.items ++ map (by_part part) own.now) }
{
    for usage in own {
        uses.push(PartUsage {
            used: usage.used,
            reads: usage.reads,
            part,
        })?;
    }
    Ok(())
}

/// Adds the uses of this process, which is the part at this place.
fn push_uses_of(
    alloc: Global,
    uses: &mut Vec<PartUsage>,
    process: &Process,
    part: usize,
) -> Result<(), Memory>
    ensures { OnOk result
        ((site : ℕ) →
        uses.new.items ≡
        uses.old.items ++ map (by_part part) (usages ((number process.now).tree site))) }
{
    let mut own = Items::new(alloc);
    push_usages(&mut own, process)?;
    push_part(uses, own.as_slice(), part)
}

/// The uses of all parts.
fn uses_of(alloc: Global, parts: &Items<Process>) -> Result<Vec<PartUsage>, Memory>
    ensures { IfOk result
        (λ uses. (site : ℕ) → uses.items ≡ part_usages 0 (parts_from site (map number parts.now))) }
{
    let mut uses = Vec::new(alloc);
    let parts = parts.as_slice();
    for place in 0..parts.len() {
        if let Err(memory) = push_uses_of(alloc, &mut uses, &parts[place], place) {
            return Err(memory);
        }
    }
    Ok(uses)
}

/// Puts uses in order: by what is used, and then changes before the rest.
fn sort_uses(uses: &mut Vec<PartUsage>)
    ensures ascending { Ascending uses.new.items }
    ensures same { IsPermutation uses.old.items uses.new.items }
{
    uses.sort_unstable();
}

/// Whether the first use clashes with the second.
fn clashes(first: &PartUsage, second: &PartUsage) -> bool
    ensures { IsTrue result ↔ Clashes first.now second.now }
{
    first.used == second.used && !first.reads && first.part != second.part
}

/// The first of the uses of the same thing, of which `first` is one, or this is where the next ones begin.
fn first_of_same(first: &PartUsage, next: &PartUsage) -> PartUsage
    ensures { ((first.now.used ≡ next.now.used) × (result ≡ first.now)) ⊎
        ((first.now.used ≡ next.now.used → ⊥) × (result ≡ next.now)) }
{
    if first.used == next.used {
        *first
    } else {
        *next
    }
}

/// The first clash in uses that are in order.
fn first_clash(uses: &[PartUsage]) -> Option<Used>
    requires { Ascending uses.now }
    ensures { IsFirstClash uses.now result }
{
    let mut first = match uses.first() {
        Some(first) => *first,
        None => return None,
    };
    for usage in uses {
        if clashes(&first, usage) {
            return Some(first.used);
        }
        first = first_of_same(&first, usage);
    }
    None
}

/// What is reported of a clash.
fn fault_by(used: Used) -> UseFault
    ensures { result ≡ fault_of used }
{
    match used {
        Used::Output(chan) => UseFault::Chan(chan),
        Used::Input(chan) => UseFault::Chan(chan),
        Used::Variable(var) => UseFault::Var(var),
    }
}

/// Accepts exactly the parts that may run side by side, else reports the least channel that two of them output on, else the least
/// that two input on, else the least variable that one changes and another uses.
pub(crate) fn check_parts(alloc: Global, parts: &Items<Process>) -> Result<(), UseFault>
    ensures { (site : ℕ) →
        Judges result (SideBySide (parts_from site (map number parts.now)))
        (Offends (parts_from site (map number parts.now))) }
{
    let mut uses = uses_of(alloc, parts)?;
    sort_uses(&mut uses);
    match first_clash(&uses) {
        Some(used) => Err(fault_by(used)),
        None => Ok(()),
    }
}
