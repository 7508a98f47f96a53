//! What is found first in a process and in those within it.
ghost use Rattle.std.specs.Prelude.{◌≡◌, ◌++◌, ℕ, Option, IfOk, map};
ghost use Rattle.vc_explain.specs.Uses.{Located, first_of, within, within_branches, within_guards, within_parts};
ghost use Rattle.vc_process.specs.InOrder.{number};
ghost use Rattle.vc_process.specs.Private.InOrder.{number_branch, number_guard};
ghost use Rattle.vc_process.specs.Numbering.{branches_from, guards_from, parts_from};

use sqlite_items::Items;
use std::alloc::Global;
use vc_packets::Memory;
use vc_process::{Branch, Guard, Process};
use vc_reader::{Step, Word};

/// A search has a meaning: what it finds of each process, at its path and apart from those within it.
pub(crate) trait Search {
    type Found: Drop;

    ghost finds: { Self → Located → Option Self.Found };

    fn own(
        &self,
        alloc: Global,
        at: &[Step],
        process: &Process,
    ) -> Result<Option<Self::Found>, Memory>
        ensures { IfOk result (λ found. (site : ℕ) →
            found ≡ finds self.now ((number process.now).tree site, at.now)) };
}

/// A path, and more steps after it.
pub(crate) fn longer(alloc: Global, at: &[Step], more: &[Step]) -> Result<Vec<Step>, Memory>
    ensures { IfOk result (λ made. made.items ≡ at.now ++ more.now) }
{
    let mut made = Vec::new(alloc);
    made.extend_from_slice(at)?;
    made.extend_from_slice(more)?;
    Ok(made)
}

/// What is found first, by site, in a process at this path or in those within it. It fails only when out of memory.
#[cycle(search)]
pub(crate) fn first_found<S: Search>(
    alloc: Global,
    search: &S,
    at: &[Step],
    process: &Process,
) -> Result<Option<S::Found>, Memory>
    ensures { IfOk result (λ found. (site : ℕ) → found ≡ first_of (S.finds search.now)
        (within ((number process.now).tree site) at.now)) }
{
    if let Some(found) = search.own(alloc, at, process)? {
        return Ok(Some(found));
    }
    match process {
        Process::Seq(parts) => found_in_parts(alloc, search, at, Word::Seq, parts),
        Process::Par(parts) => found_in_parts(alloc, search, at, Word::Par, parts),
        Process::If(branches) => found_in_branches(alloc, search, at, branches),
        Process::While { body, .. } => {
            let steps = [Step::Field(Word::While), Step::Index(1)];
            found_behind(alloc, search, at, &steps, body.get())
        }
        Process::Count { body, .. } => {
            let steps = [Step::Field(Word::For), Step::Index(3)];
            found_behind(alloc, search, at, &steps, body.get())
        }
        Process::Alt(guards) => found_in_guards(alloc, search, at, guards),
        _ => Ok(None),
    }
}

/// The first in a process at these steps after a path.
#[cycle(search)]
fn found_behind<S: Search>(
    alloc: Global,
    search: &S,
    at: &[Step],
    steps: &[Step],
    process: &Process,
) -> Result<Option<S::Found>, Memory>
    ensures { IfOk result (λ found. (site : ℕ) → found ≡ first_of (S.finds search.now)
        (within ((number process.now).tree site) (at.now ++ steps.now))) }
{
    let path = longer(alloc, at, steps)?;
    first_found(alloc, search, path.as_slice(), process)
}

/// The first in the parts of a SEQ or a PAR.
#[cycle(search)]
fn found_in_parts<S: Search>(
    alloc: Global,
    search: &S,
    at: &[Step],
    list: Word,
    parts: &Items<Process>,
) -> Result<Option<S::Found>, Memory>
    ensures { IfOk result (λ found. (site : ℕ) → found ≡ first_of (S.finds search.now)
        (within_parts list at.now 0 (parts_from site (map number parts.now)))) }
{
    for (k, part) in parts.as_slice().iter().enumerate() {
        let steps = [Step::Field(list), Step::Index(k)];
        if let Some(found) = found_behind(alloc, search, at, &steps, part)? {
            return Ok(Some(found));
        }
    }
    Ok(None)
}

/// The first in what an IF does under its conditions.
#[cycle(search)]
fn found_in_branches<S: Search>(
    alloc: Global,
    search: &S,
    at: &[Step],
    branches: &Items<Branch>,
) -> Result<Option<S::Found>, Memory>
    ensures { IfOk result (λ found. (site : ℕ) → found ≡ first_of (S.finds search.now)
        (within_branches at.now 0 (branches_from site (map number_branch branches.now)))) }
{
    for (k, branch) in branches.as_slice().iter().enumerate() {
        let steps = [Step::Field(Word::If), Step::Index(k), Step::Index(1)];
        if let Some(found) = found_behind(alloc, search, at, &steps, &branch.body)? {
            return Ok(Some(found));
        }
    }
    Ok(None)
}

/// The first in what an ALT does after its guards.
#[cycle(search)]
fn found_in_guards<S: Search>(
    alloc: Global,
    search: &S,
    at: &[Step],
    guards: &Items<Guard>,
) -> Result<Option<S::Found>, Memory>
    ensures { IfOk result (λ found. (site : ℕ) → found ≡ first_of (S.finds search.now)
        (within_guards at.now 0 (guards_from site (map number_guard guards.now)))) }
{
    for (k, guard) in guards.as_slice().iter().enumerate() {
        let steps = [Step::Field(Word::Alt), Step::Index(k), Step::Index(3)];
        if let Some(found) = found_behind(alloc, search, at, &steps, &guard.body)? {
            return Ok(Some(found));
        }
    }
    Ok(None)
}
