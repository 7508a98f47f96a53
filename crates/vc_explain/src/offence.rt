//! The two places of a use that is not lawful.
ghost use Rattle.std.specs.Prelude.{◌≡◌, ◌==◌, [], ℕ, IfOk, None, Some, if◌then◌else◌, map};
ghost use Rattle.std.specs.Str.{bytes_eq};
ghost use Rattle.vc_explain.specs.Offences.{channel_clash as clash_on_channel, channel_named as channel_of_name, clash as clash_in, first_beside, first_in, in_par as path_in_par, index_change as change_of_index, offence_by as offence_by_node, offence_of as offence_of_node, own_offence as offence_of_own, process_path as path_of_process, variable_clash as clash_on_variable, variable_named as variable_of_name};
ghost use Rattle.vc_explain.specs.Uses.{place};
ghost use Rattle.vc_process.specs.InOrder.{number};
ghost use Rattle.vc_process.specs.Numbering.{parts_from};
ghost use Rattle.vc_process.specs.Syntax.{PAR};

use crate::place_of_use::place_of;
use crate::search::{Search, first_found, longer};
use crate::wanted::Wanted;
use sqlite_items::Items;
use std::alloc::Global;
use vc_packets::Memory;
use vc_plan::{Channel, NodePlan, Plan, Variable};
use vc_process::Process;
use vc_reader::{Step, Word};

/// The channel and the variable of a node that have one name, by their numbers.
#[derive(Clone, Copy, Drop)]
pub(crate) struct Named {
    /// The channel.
    pub(crate) chan: Option<usize>,
    /// The variable.
    pub(crate) var: Option<usize>,
}

/// Two places in a process, by their paths.
#[derive(Drop)]
pub(crate) struct Places {
    /// The place that is reported first.
    pub(crate) first: Items<Step>,
    /// The other one.
    pub(crate) second: Items<Step>,
}

/// A place in a part of a PAR.
#[derive(Drop)]
pub(crate) struct PartPlace {
    /// The number of the part.
    pub(crate) part: usize,
    /// The path.
    pub(crate) path: Items<Step>,
}

/// The path of part k of the PAR at this path.
fn in_par(alloc: Global, at: &[Step], k: usize) -> Result<Vec<Step>, Memory>
    ensures { IfOk result (λ path. path.items ≡ path_in_par at.now k) }
{
    longer(alloc, at, &[Step::Field(Word::Par), Step::Index(k)])
}

/// The first place in the parts of a PAR.
fn first_place(
    alloc: Global,
    wanted: Wanted,
    at: &[Step],
    parts: &Items<Process>,
) -> Result<Option<PartPlace>, Memory>
    ensures { IfOk result (λ found. (site : ℕ) →
        found ≡ first_in wanted at.now 0 (parts_from site (map number parts.now))) }
{
    for (k, part) in parts.as_slice().iter().enumerate() {
        let own = in_par(alloc, at, k)?;
        if let Some(path) = place_of(alloc, wanted, &[], own.as_slice(), part)? {
            return Ok(Some(PartPlace { part: k, path }));
        }
    }
    Ok(None)
}

/// The first place in part k of a PAR, unless it is this part.
fn place_unless(
    alloc: Global,
    wanted: Wanted,
    part: usize,
    at: &[Step],
    k: usize,
    process: &Process,
) -> Result<Option<Items<Step>>, Memory>
    ensures { IfOk result (λ found. (site : ℕ) → found ≡ (if k == part then None
        else place wanted [] ((number process.now).tree site) (path_in_par at.now k))) }
{
    if k == part {
        return Ok(None);
    }
    let own = in_par(alloc, at, k)?;
    place_of(alloc, wanted, &[], own.as_slice(), process)
}

/// The first place in the parts of a PAR but one.
fn place_beside(
    alloc: Global,
    wanted: Wanted,
    part: usize,
    at: &[Step],
    parts: &Items<Process>,
) -> Result<Option<Items<Step>>, Memory>
    ensures { IfOk result (λ found. (site : ℕ) →
        found ≡ first_beside wanted part at.now 0 (parts_from site (map number parts.now))) }
{
    for (k, other) in parts.as_slice().iter().enumerate() {
        if let Some(path) = place_unless(alloc, wanted, part, at, k, other)? {
            return Ok(Some(path));
        }
    }
    Ok(None)
}

/// The first place where a part changes something or communicates on it, and the first where another part uses it.
fn clash(
    alloc: Global,
    change: Wanted,
    other: Wanted,
    at: &[Step],
    parts: &Items<Process>,
) -> Result<Option<Places>, Memory>
    ensures { IfOk result (λ found. (site : ℕ) →
        found ≡ clash_in change other at.now (parts_from site (map number parts.now))) }
{
    let Some(PartPlace { part, path }) = first_place(alloc, change, at, parts)? else {
        return Ok(None);
    };
    match place_beside(alloc, other, part, at, parts)? {
        Some(second) => Ok(Some(Places {
            first: path,
            second,
        })),
        None => Ok(None),
    }
}

/// Two outputs on a channel, or else two inputs, in two parts of a PAR.
fn channel_clash(
    alloc: Global,
    chan: Option<usize>,
    at: &[Step],
    parts: &Items<Process>,
) -> Result<Option<Places>, Memory>
    ensures { IfOk result (λ found. (site : ℕ) →
        found ≡ clash_on_channel chan at.now (parts_from site (map number parts.now))) }
{
    let Some(chan) = chan else {
        return Ok(None);
    };
    match clash(alloc, Wanted::Output(chan), Wanted::Output(chan), at, parts)? {
        Some(found) => Ok(Some(found)),
        None => clash(alloc, Wanted::Input(chan), Wanted::Input(chan), at, parts),
    }
}

/// A change of a variable and another use, in two parts of a PAR.
fn variable_clash(
    alloc: Global,
    var: Option<usize>,
    at: &[Step],
    parts: &Items<Process>,
) -> Result<Option<Places>, Memory>
    ensures { IfOk result (λ found. (site : ℕ) →
        found ≡ clash_on_variable var at.now (parts_from site (map number parts.now))) }
{
    match var {
        Some(var) => clash(alloc, Wanted::Change(var), Wanted::Use(var), at, parts),
        None => Ok(None),
    }
}

/// The index of a replicated SEQ and the first place in its body that changes it, where it is the variable that is named.
fn index_change(
    alloc: Global,
    named: Option<usize>,
    at: &[Step],
    var: u8,
    body: &Process,
) -> Result<Option<Places>, Memory>
    ensures { IfOk result (λ found. (site : ℕ) →
        found ≡ change_of_index named at.now var ((number body.now).tree site)) }
{
    let Some(index) = named else {
        return Ok(None);
    };
    if usize::from(var) != index {
        return Ok(None);
    }
    let own = longer(alloc, at, &[Step::Field(Word::For), Step::Index(3)])?;
    let Some(second) = place_of(alloc, Wanted::Change(index), &[], own.as_slice(), body)? else {
        return Ok(None);
    };
    let first = longer(alloc, at, &[Step::Field(Word::For), Step::Index(0)])?;
    Ok(Some(Places {
        first: Items::from_vec(first),
        second,
    }))
}

/// What a PAR does wrong with what is named.
fn par_offence(
    alloc: Global,
    named: Named,
    at: &[Step],
    parts: &Items<Process>,
) -> Result<Option<Places>, Memory>
    ensures { IfOk result (λ found. (i site : ℕ) →
        found ≡ offence_of_own named (PAR i (parts_from site (map number parts.now)), at.now)) }
{
    match channel_clash(alloc, named.chan, at, parts)? {
        Some(found) => Ok(Some(found)),
        None => variable_clash(alloc, named.var, at, parts),
    }
}

/// What a process does wrong with what is named, apart from those within it.
fn own_offence(
    alloc: Global,
    named: Named,
    at: &[Step],
    process: &Process,
) -> Result<Option<Places>, Memory>
    ensures { IfOk result (λ found. (site : ℕ) →
        found ≡ offence_of_own named ((number process.now).tree site, at.now)) }
{
    match process {
        Process::Par(parts) => par_offence(alloc, named, at, parts),
        Process::Count { var, body, .. } => index_change(alloc, named.var, at, *var, body.get()),
        _ => Ok(None),
    }
}

impl Search for Named {
    type Found = Places;

    ghost finds = { λ n. offence_of_own n };

    fn own(&self, alloc: Global, at: &[Step], process: &Process) -> Result<Option<Places>, Memory> {
        own_offence(alloc, *self, at, process)
    }
}

fn is_name(own: &[u8], name: &[u8]) -> bool
    ensures { result ≡ bytes_eq name.now own.now }
{
    name == own
}

/// The first channel of this name.
fn channel_named(channels: &[Channel], name: &[u8]) -> Option<usize>
    ensures { result ≡ channel_of_name channels.now name.now }
{
    channels
        .iter()
        .position(|channel| is_name(channel.name.as_slice(), name))
}

/// The first variable of this name.
fn variable_named(vars: &[Variable], name: &[u8]) -> Option<usize>
    ensures { result ≡ variable_of_name vars.now name.now }
{
    vars.iter()
        .position(|var| is_name(var.name.as_slice(), name))
}

/// Where the process of a node is.
pub(crate) fn process_path(node: usize) -> [Step; 3]
    ensures { result ≡ path_of_process node }
{
    [
        Step::Field(Word::Nodes),
        Step::Index(node),
        Step::Field(Word::Process),
    ]
}

/// The first thing that the process of this node does wrong with the channel or the variable of this name.
fn offence_by(
    alloc: Global,
    plan: &Plan,
    number: usize,
    name: &[u8],
    node: &NodePlan,
) -> Result<Option<Places>, Memory>
    ensures { IfOk result (λ found.
        found ≡ offence_by_node plan.now.channels number name.now (Some node.now)) }
{
    let named = Named {
        chan: channel_named(plan.channels.as_slice(), name),
        var: variable_named(node.vars.as_slice(), name),
    };
    first_found(alloc, &named, &process_path(number), &node.process)
}

/// The two places in the process of a node where it uses the channel or the variable of this name as it may not: of the first PAR, by
/// site, of which two parts do, or of the first replicated SEQ that changes its index. None where there is no such node, and where its
/// process uses them lawfully. It fails only when out of memory.
pub(crate) fn offence_of(
    alloc: Global,
    plan: &Plan,
    number: usize,
    name: &[u8],
) -> Result<Option<Places>, Memory>
    ensures { IfOk result (λ found. found ≡ offence_of_node plan.now number name.now) }
{
    match plan.nodes.get(number) {
        Some(node) => offence_by(alloc, plan, number, name, node),
        None => Ok(None),
    }
}
