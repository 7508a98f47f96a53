//! The paths of processes in the network file.
ghost use Rattle.std.specs.Prelude.{◌≡◌, ◌++◌, ◌∷◌, [], IfOk, OnOk, codes, decimal, map};
ghost use Rattle.vc_waits.specs.Private.Paths.{branch_paths, guard_paths};
ghost use Rattle.vc_waits.specs.Paths.{list_paths, paths};

use crate::number::push_number;
use sqlite_items::Items;
use std::alloc::Global;
use vc_packets::{Bytes, Memory};
use vc_process::{Branch, Guard, Process};

/// Adds the path of a process and the paths of those within it, in order of site. `at` is its own path.
#[cycle(paths)]
pub(crate) fn push_paths(
    alloc: Global,
    found: &mut Items<Bytes>,
    at: &[u8],
    process: &Process,
) -> Result<(), Memory>
    ensures { OnOk result (found.new ≡ found.old ++ paths process.now at.now) }
{
    push_path(alloc, found, at)?;
    match process {
        Process::Seq(parts) => push_parts(alloc, found, at, b"/seq/", parts),
        Process::Par(parts) => push_parts(alloc, found, at, b"/par/", parts),
        Process::If(branches) => push_branches(alloc, found, at, branches),
        Process::While { body, .. } => push_body(alloc, found, at, b"/while/1", body.get()),
        Process::Count { body, .. } => push_body(alloc, found, at, b"/for/3", body.get()),
        Process::Alt(guards) => push_guards(alloc, found, at, guards),
        _ => Ok(()),
    }
}

/// Adds a path.
fn push_path(alloc: Global, found: &mut Items<Bytes>, path: &[u8]) -> Result<(), Memory>
    ensures { OnOk result (found.new ≡ found.old ++ path.now ∷ []) }
{
    found.push(Bytes::from_slice(alloc, path)?)?;
    Ok(())
}

/// A path, and more after it.
fn longer(alloc: Global, path: &[u8], more: &[u8]) -> Result<Vec<u8>, Memory>
    ensures { IfOk result (λ made. made.items ≡ path.now ++ more.now) }
{
    let mut made = Vec::new(alloc);
    made.extend_from_slice(path)?;
    made.extend_from_slice(more)?;
    Ok(made)
}

/// A path, an index, and more after it.
#[tactic(auto, using(std::proofs::Common::append_assoc))]
fn place(alloc: Global, path: &[u8], index: usize, more: &[u8]) -> Result<Vec<u8>, Memory>
    ensures { IfOk result (λ made. made.items ≡ path.now ++ decimal index ++ more.now) }
{
    let mut made = Vec::new(alloc);
    made.extend_from_slice(path)?;
    push_number(&mut made, index as u64)?;
    made.extend_from_slice(more)?;
    Ok(made)
}

/// Adds the paths of a body, which is at this step from its process.
#[cycle(paths)]
fn push_body(
    alloc: Global,
    found: &mut Items<Bytes>,
    at: &[u8],
    step: &[u8],
    body: &Process,
) -> Result<(), Memory>
    ensures { OnOk result (found.new ≡ found.old ++ paths body.now (at.now ++ step.now)) }
{
    let path = longer(alloc, at, step)?;
    push_paths(alloc, found, path.as_slice(), body)
}

/// Adds the paths of the parts of a SEQ or a PAR, which are in a list at this step from it.
#[cycle(paths)]
fn push_parts(
    alloc: Global,
    found: &mut Items<Bytes>,
    at: &[u8],
    step: &[u8],
    parts: &Items<Process>,
) -> Result<(), Memory>
    ensures { OnOk result (found.new ≡ found.old
        ++ list_paths (at.now ++ step.now) [] (map paths parts.now)) }
{
    let list = longer(alloc, at, step)?;
    for (k, part) in parts.as_slice().iter().enumerate() {
        let path = place(alloc, list.as_slice(), k, b"")?;
        if let Err(memory) = push_paths(alloc, found, path.as_slice(), part) {
            return Err(memory);
        }
    }
    Ok(())
}

/// Adds the paths of the branches of an IF.
#[cycle(paths)]
fn push_branches(
    alloc: Global,
    found: &mut Items<Bytes>,
    at: &[u8],
    branches: &Items<Branch>,
) -> Result<(), Memory>
    ensures { OnOk result (found.new ≡ found.old
        ++ list_paths (at.now ++ codes "/if/") (codes "/1") (map branch_paths branches.now)) }
{
    let list = longer(alloc, at, b"/if/")?;
    for (k, branch) in branches.as_slice().iter().enumerate() {
        let path = place(alloc, list.as_slice(), k, b"/1")?;
        if let Err(memory) = push_paths(alloc, found, path.as_slice(), &branch.body) {
            return Err(memory);
        }
    }
    Ok(())
}

/// Adds the paths of the bodies of an ALT.
#[cycle(paths)]
fn push_guards(
    alloc: Global,
    found: &mut Items<Bytes>,
    at: &[u8],
    guards: &Items<Guard>,
) -> Result<(), Memory>
    ensures { OnOk result (found.new ≡ found.old
        ++ list_paths (at.now ++ codes "/alt/") (codes "/3") (map guard_paths guards.now)) }
{
    let list = longer(alloc, at, b"/alt/")?;
    for (k, guard) in guards.as_slice().iter().enumerate() {
        let path = place(alloc, list.as_slice(), k, b"/3")?;
        if let Err(memory) = push_paths(alloc, found, path.as_slice(), &guard.body) {
            return Err(memory);
        }
    }
    Ok(())
}
