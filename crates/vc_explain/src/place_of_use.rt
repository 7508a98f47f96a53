//! Where a process first uses what is wanted.
ghost use Rattle.std.specs.Prelude.{◌≡◌, ◌++◌, ◌∷◌, [], ℕ, IfOk, Some, None, if◌then◌else◌, map};
ghost use Rattle.vc_explain.specs.Uses.{branch_uses, first_marked, first_of, guard_uses, items_at, own_place as place_of_own, place, place_if, uses_of_count};
ghost use Rattle.vc_process.specs.InOrder.{number};
ghost use Rattle.vc_process.specs.Private.InOrder.{number_branch, number_guard};
ghost use Rattle.vc_process.specs.Numbering.{branches_from, guards_from};
ghost use Rattle.vc_process.specs.Terms.{exp};
ghost use Rattle.vc_reader.specs.declared.path.Step.TheVariants.{Field, Index};
ghost use Rattle.vc_reader.specs.declared.word.Word.TheVariants as word;

use crate::search::{Search, first_found, longer};
use crate::wanted::{Wanted, kind_at};
use sqlite_items::Items;
use std::alloc::Global;
use vc_packets::Memory;
use vc_process::{Branch, Expr, Guard, Process, ValueKind};
use vc_reader::{Step, Word};

/// The place of a step after this path.
fn place_behind(
    alloc: Global,
    at: &[Step],
    more: &[Step],
    last: Step,
) -> Result<Items<Step>, Memory>
    ensures { IfOk result (λ made. made ≡ (at.now ++ more.now) ++ last ∷ []) }
{
    let mut made = longer(alloc, at, more)?;
    made.push(last)?;
    Ok(Items::from_vec(made))
}

/// The place of the first item that is marked, in a list at these steps from a path.
fn marked_item(
    alloc: Global,
    at: &[Step],
    list: &[Step],
    marks: &[bool],
) -> Result<Option<Items<Step>>, Memory>
    ensures { IfOk result (λ found. found ≡ first_marked (at.now ++ list.now) 0 marks.now) }
{
    for (k, is_marked) in marks.iter().enumerate() {
        if *is_marked {
            return Ok(Some(place_behind(alloc, at, list, Step::Index(k))?));
        }
    }
    Ok(None)
}

/// The place of the first item that is marked, in the list of this word at a path.
fn marked_at(
    alloc: Global,
    at: &[Step],
    list: Word,
    marks: &[bool],
) -> Result<Option<Items<Step>>, Memory>
    ensures { IfOk result (λ found.
        found ≡ first_marked (at.now ++ Field list ∷ []) 0 marks.now) }
{
    marked_item(alloc, at, &[Step::Field(list)], marks)
}

/// The place of a stop, where it is wanted.
fn wanted_stop(alloc: Global, is_wanted: bool, at: &[Step]) -> Result<Option<Items<Step>>, Memory>
    ensures { IfOk result (λ found.
        found ≡ (if is_wanted then Some (at.now ++ Field word.Stopch ∷ []) else None)) }
{
    if !is_wanted {
        return Ok(None);
    }
    let path = longer(alloc, at, &[Step::Field(Word::Stopch)])?;
    Ok(Some(Items::from_vec(path)))
}

/// The first condition of an IF that is wanted.
fn wanted_condition(
    alloc: Global,
    wanted: Wanted,
    at: &[Step],
    branches: &Items<Branch>,
) -> Result<Option<Items<Step>>, Memory>
    ensures { IfOk result (λ found. (site : ℕ) → found ≡ first_of (place_if wanted)
        (branch_uses at.now 0 (branches_from site (map number_branch branches.now)))) }
{
    for (k, branch) in branches.as_slice().iter().enumerate() {
        let list = [Step::Field(Word::If), Step::Index(k)];
        let marks = [wanted.has_condition(&branch.cond)];
        if let Some(found) = marked_item(alloc, at, &list, &marks)? {
            return Ok(Some(found));
        }
    }
    Ok(None)
}

/// The first use in the guards of an ALT that is wanted.
fn wanted_guard(
    alloc: Global,
    wanted: Wanted,
    kinds: &[ValueKind],
    at: &[Step],
    guards: &Items<Guard>,
) -> Result<Option<Items<Step>>, Memory>
    ensures { IfOk result (λ found. (site : ℕ) → found ≡ first_of (place_if wanted)
        (guard_uses kinds.now at.now 0 (guards_from site (map number_guard guards.now)))) }
{
    for (k, guard) in guards.as_slice().iter().enumerate() {
        let list = [Step::Field(Word::Alt), Step::Index(k)];
        let marks = [
            wanted.has_condition(&guard.cond),
            wanted.has_input(guard.chan, kind_at(kinds, guard.var)),
            wanted.has_change(guard.var),
        ];
        if let Some(found) = marked_item(alloc, at, &list, &marks)? {
            return Ok(Some(found));
        }
    }
    Ok(None)
}

/// The first use in a replicated SEQ that is wanted, apart from its body.
fn place_in_count(
    alloc: Global,
    wanted: Wanted,
    at: &[Step],
    var: u8,
    base: &Expr,
    count: &Expr,
) -> Result<Option<Items<Step>>, Memory>
    ensures { IfOk result (λ found. found ≡ first_of (place_if wanted) (items_at
        (at.now ++ Field word.For ∷ []) 0 (uses_of_count var (exp base.now) (exp count.now)))) }
{
    let marks = [
        wanted.has_change(var),
        wanted.has_expression(base),
        wanted.has_expression(count),
    ];
    marked_at(alloc, at, Word::For, &marks)
}

/// The first use of a process that is wanted, apart from those within it.
fn own_place(
    alloc: Global,
    wanted: Wanted,
    kinds: &[ValueKind],
    at: &[Step],
    process: &Process,
) -> Result<Option<Items<Step>>, Memory>
    ensures { IfOk result (λ found. (site : ℕ) →
        found ≡ place_of_own wanted kinds.now ((number process.now).tree site, at.now)) }
{
    match process {
        Process::Set { var, value } => {
            let marks = [wanted.has_change(*var), wanted.has_value(value)];
            marked_at(alloc, at, Word::Set, &marks)
        }
        Process::Send { chan, value } => {
            let marks = [wanted.has_output(*chan, value), wanted.has_value(value)];
            marked_at(alloc, at, Word::Out, &marks)
        }
        Process::Receive { chan, var } => {
            let kind = kind_at(kinds, *var);
            let marks = [wanted.has_input(*chan, kind), wanted.has_change(*var)];
            marked_at(alloc, at, Word::In, &marks)
        }
        Process::Stopch { chan } => wanted_stop(alloc, wanted.has_input(*chan, None), at),
        Process::If(branches) => wanted_condition(alloc, wanted, at, branches),
        Process::While { cond, .. } => {
            marked_at(alloc, at, Word::While, &[wanted.has_condition(cond)])
        }
        Process::Count {
            var,
            base,
            count,
            ..
        } => place_in_count(alloc, wanted, at, *var, base, count),
        Process::Alt(guards) => wanted_guard(alloc, wanted, kinds, at, guards),
        _ => Ok(None),
    }
}

/// A search for what is wanted, in a process whose node has variables of these kinds.
#[derive(Drop)]
struct UseSearch<'a> {
    wanted: Wanted,
    kinds: &'a [ValueKind],
}

impl Search for UseSearch<'_> {
    type Found = Items<Step>;

    ghost finds = { λ s. place_of_own s.wanted s.kinds.now };

    fn own(
        &self,
        alloc: Global,
        at: &[Step],
        process: &Process,
    ) -> Result<Option<Items<Step>>, Memory> {
        own_place(alloc, self.wanted, self.kinds, at, process)
    }
}

/// The path of the first use, by site, that is wanted, of a process that is at this path and whose node has variables of these
/// kinds. None where there is no such use. It fails only when out of memory.
pub(crate) fn place_of(
    alloc: Global,
    wanted: Wanted,
    kinds: &[ValueKind],
    at: &[Step],
    process: &Process,
) -> Result<Option<Items<Step>>, Memory>
    ensures { IfOk result (λ found. (site : ℕ) →
        found ≡ place wanted kinds.now ((number process.now).tree site) at.now) }
{
    first_found(alloc, &UseSearch { wanted, kinds }, at, process)
}
