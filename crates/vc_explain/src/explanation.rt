//! What is said of a network file.
ghost use Rattle.std.specs.Prelude.{◌≡◌, ◌++◌, ◌-◌, ◌≤◌, [], length, take, option_map, IfOk, OnOk, Ok, Err, Some};
ghost use Rattle.std.specs.List.{flat_map};
ghost use Rattle.serde_json.specs.Data.{null};
ghost use Rattle.serde_json.specs.View.{view};
ghost use Rattle.vc_plan.specs.KeptLimits.{KeepsLimits};
ghost use Rattle.vc_text.specs.declared.fault.RunFault.TheVariants.{Text, Network, Plan as InPlan};
ghost use Rattle.vc_explain.specs.Explanation.{Explains, HasValue, IsRefusal, IsTold, IsToldOfAccepted, IsToldOfRefusal, accepted_told, refusal_told, summary_text, text_place};
ghost use Rattle.vc_explain.specs.Offenders.{path_of};
ghost use Rattle.vc_explain.specs.Place.{path_line};
ghost use Rattle.vc_reader.specs.NetworkText.{Reads};
ghost use Rattle.vc_text.specs.CheckText.{ReadsFile};
ghost use Rattle.vc_text.specs.Deadlock.{deadlock_text};
ghost use Rattle.vc_text.specs.Streams.{most_bytes};

use crate::cause::push_cause_sentence;
use crate::detail::push_detail;
use crate::lengths::push_lengths;
use crate::offender::{Offender, offenders, push_offender_line};
use crate::place::{push_byte_line, push_path_line};
use crate::sentence::plan_sentence;
use crate::short_places::all_in_short;
use crate::text_sentence::push_text_sentence;
use crate::walk::push_path;
use serde_json::Value;
use std::alloc::Global;
use std::io::{Read, Write};
use vc_cycles::find_cycle;
use vc_label_text::LabelCause;
use vc_packets::Memory;
use vc_plan::{Accepted, CheckRefused, Plan, Port, Refusal, VlinkLength, check, vlink_lengths};
use vc_reader::{Path, ReadRefused, Step, read_bare};
use vc_text::{
    NetworkFile, RunFault, accepted_text, cycle_text, fault_text, push_number, read_all, read_file,
    write_text,
};

/// What is said of a network file.
#[derive(Drop)]
pub struct Explanation {
    /// The text.
    pub text: Vec<u8>,
    /// Whether the network is accepted.
    pub is_accepted: bool,
}

/// How many nodes and switches, wires, and links that have a wire.
#[tactic(auto, using(std::proofs::Common::append_assoc), unfolding(crate::specs::Explanation::summary_text))]
fn push_summary(out: &mut Vec<u8>, plan: &Plan) -> Result<(), Memory>
    requires { KeepsLimits plan.now }
    ensures { OnOk result (out.new.items ≡ out.old.items ++ summary_text plan.now) }
{
    let wires = plan.wires.len() as u64;
    out.extend_from_slice(b"actors ")?;
    push_number(out, plan.nodes.len() as u64 + plan.switches.len() as u64)?;
    out.extend_from_slice(b" wires ")?;
    push_number(out, wires)?;
    out.extend_from_slice(b" links ")?;
    push_number(out, 2 * wires)?;
    out.push(10)?;
    Ok(())
}

/// That no dependencies form a cycle, or one along which packets might wait for one another.
fn push_deadlock(
    alloc: Global,
    out: &mut Vec<u8>,
    plan: &Plan,
    found: Option<&[Port]>,
) -> Result<(), Memory>
    ensures { OnOk result (out.new.items
        ≡ out.old.items ++ deadlock_text plan.now (option_map (λ ports. ports.now) found.entry)) }
{
    match found {
        None => out.extend_from_slice(b"free\n")?,
        Some(ports) => out.extend_from_slice(cycle_text(alloc, plan, ports)?.as_slice())?,
    }
    Ok(())
}

/// What is said of an accepted network whose packets pass so many switches, and in which these ports of a cycle were found, or none.
#[tactic(auto, using(std::proofs::Common::append_assoc), unfolding(crate::specs::Explanation::accepted_told))]
fn tell_found(
    alloc: Global,
    plan: &Plan,
    lengths: &[VlinkLength],
    found: Option<&[Port]>,
) -> Result<Vec<u8>, Memory>
    requires { KeepsLimits plan.now }
    ensures { IfOk result (λ told. told.items
        ≡ accepted_told plan.now lengths.now (option_map (λ ports. ports.now) found.entry)) }
{
    let mut out = accepted_text(alloc, plan)?;
    push_summary(&mut out, plan)?;
    push_lengths(&mut out, plan, lengths)?;
    push_deadlock(alloc, &mut out, plan, found)?;
    Ok(out)
}

/// What is said of an accepted network.
fn tell_accepted(alloc: Global, accepted: &Accepted) -> Result<Vec<u8>, Memory>
    ensures { IfOk result (λ told. IsToldOfAccepted accepted.now told.items) }
{
    let plan = accepted.plan();
    let lengths = vlink_lengths(alloc, accepted)?;
    match find_cycle(alloc, accepted)? {
        None => tell_found(alloc, plan, &lengths, None),
        Some(ports) => tell_found(alloc, plan, &lengths, Some(ports.as_slice())),
    }
}

/// The byte at a line and a column, both from 1, or the end of the text where there is none.
fn byte_of(text: &[u8], line: usize, column: usize) -> usize
    ensures { result ≤ length text.now }
{
    let mut rest = text;
    let mut left = line.saturating_sub(1);
    while let Some((byte, tail)) = rest.split_first() {
        if left == 0 {
            break;
        }
        if *byte == b'\n' {
            left -= 1;
        }
        rest = tail;
    }
    let before = text.len() - rest.len();
    before + column.saturating_sub(1).min(rest.len())
}

/// The byte at which the reader of JSON stopped. The contract says no more than that it is in the text, or at its end.
fn stop_of(alloc: Global, text: &[u8]) -> Result<usize, Memory>
    ensures { IfOk result (λ n. n ≤ length text.now) }
{
    match Value::from_slice(alloc, text) {
        Ok(_) => Ok(text.len()),
        Err(error) => if error.is_memory() {
            Err(Memory)
        } else {
            Ok(byte_of(text, error.line(), error.column()))
        },
    }
}

/// The first n steps of a path, or all where there are fewer.
#[tactic(auto, using(crate::proofs::Steps::step_more))]
pub(crate) fn first_steps(alloc: Global, path: &Path, n: usize) -> Result<Vec<Step>, Memory>
    ensures { IfOk result (λ steps. steps.items ≡ take n path.now) }
{
    let mut steps = Vec::new(alloc);
    for k in 0..path.len().min(n) {
        steps.push(path.step(k))?;
    }
    Ok(steps)
}

/// The place of the value to which a path leads.
fn push_value_place(
    alloc: Global,
    out: &mut Vec<u8>,
    text: &[u8],
    path: &Path,
) -> Result<(), Memory>
    ensures { OnOk result (out.new.items ≡ out.old.items ++ path_line text.now path.now) }
{
    let steps = first_steps(alloc, path, path.len())?;
    push_path_line(out, text, steps.as_slice())
}

/// The place of the object that lacks the field to which a path leads.
fn push_object_place(
    alloc: Global,
    out: &mut Vec<u8>,
    text: &[u8],
    path: &Path,
) -> Result<(), Memory>
    ensures { OnOk result (out.new.items
        ≡ out.old.items ++ path_line text.now (take (length path.now - 1) path.now)) }
{
    let steps = first_steps(alloc, path, path.len().saturating_sub(1))?;
    push_path_line(out, text, steps.as_slice())
}

/// Where a text is refused, or byte n where it is no JSON.
fn push_text_place(
    alloc: Global,
    out: &mut Vec<u8>,
    text: &[u8],
    n: usize,
    refused: &ReadRefused,
) -> Result<(), Memory>
    ensures { OnOk result (out.new.items ≡ out.old.items ++ text_place text.now n refused.now) }
{
    match refused {
        ReadRefused::Json => push_byte_line(out, text, n),
        ReadRefused::Missing(path) => push_object_place(alloc, out, text, path),
        ReadRefused::Kind(path) | ReadRefused::Range(path) | ReadRefused::Unknown(path) => {
            push_value_place(alloc, out, text, path)
        }
        ReadRefused::Memory => Ok(()),
    }
}

fn push_offender_lines(out: &mut Vec<u8>, text: &[u8], offenders: &[Offender]) -> Result<(), Memory>
    ensures { OnOk result (out.new.items
        ≡ out.old.items ++ flat_map (λ o. path_line text.now (path_of o)) offenders.now) }
{
    for offender in offenders {
        push_offender_line(out, text, offender)?;
    }
    Ok(())
}

/// The byte at which the text stops being JSON, where it is refused for that.
fn stop_of_refused(alloc: Global, text: &[u8], refused: &ReadRefused) -> Result<usize, Memory>
    ensures { IfOk result (λ n. n ≤ length text.now) }
{
    match refused {
        ReadRefused::Json => stop_of(alloc, text),
        _ => Ok(0),
    }
}

/// The value of a text that is JSON; nothing is said of another text.
fn value_of(alloc: Global, text: &[u8], refused: &ReadRefused) -> Result<Value, Memory>
    ensures { IfOk result (λ value. HasValue text.now refused.now (view value)) }
{
    match refused {
        ReadRefused::Json => Ok(Value::Null),
        _ => match Value::from_slice(alloc, text) {
            Ok(value) => Ok(value),
            Err(_) => Err(Memory),
        },
    }
}

/// What is said of a text that is refused.
fn tell_text(
    alloc: Global,
    text: &[u8],
    fault: &RunFault,
    refused: &ReadRefused,
) -> Result<Vec<u8>, Memory>
    requires fault { fault.now ≡ Text refused.now }
    requires known { IsRefusal fault.now }
    ensures { IfOk result (λ told. IsToldOfRefusal text.now fault.now told.items) }
{
    let n = stop_of_refused(alloc, text, refused)?;
    let value = value_of(alloc, text, refused)?;
    let mut out = fault_text(alloc, fault)?;
    push_text_sentence(alloc, &mut out, &value, refused)?;
    out.push(10)?;
    push_text_place(alloc, &mut out, text, n, refused)?;
    Ok(out)
}

/// What is said of a plan that is refused, whose file has these offenders.
fn tell_plan(
    alloc: Global,
    text: &[u8],
    found: &[Offender],
    fault: &RunFault,
) -> Result<Vec<u8>, Memory>
    ensures { IfOk result (λ told. IsRefusal fault.now
        × (told.items ≡ refusal_told text.now 0 null found.now fault.now)) }
{
    match fault {
        RunFault::Plan(
            Refusal {
                plan: _,
                why: CheckRefused::Memory,
            },
        ) => Err(Memory),
        RunFault::Plan(refusal) => {
            let mut out = fault_text(alloc, fault)?;
            out.extend_from_slice(plan_sentence(&refusal.why).as_bytes())?;
            push_detail(&mut out, &refusal.plan, &refusal.why)?;
            out.push(10)?;
            push_offender_lines(&mut out, text, found)?;
            push_path(alloc, &mut out, &refusal.plan, &refusal.why)?;
            Ok(out)
        }
        _ => Err(Memory),
    }
}

/// What is said of a network that can't be labelled.
fn tell_cause(alloc: Global, fault: &RunFault, cause: &LabelCause) -> Result<Vec<u8>, Memory>
    requires { fault.now ≡ Network cause.now }
    ensures { IfOk result (λ told. told.items ≡ refusal_told [] 0 null [] fault.now) }
{
    let mut out = fault_text(alloc, fault)?;
    push_cause_sentence(&mut out, cause)?;
    out.push(10)?;
    Ok(out)
}

/// What is said of a refusal that is not one of a plan.
fn tell_refusal(alloc: Global, text: &[u8], fault: &RunFault) -> Result<Vec<u8>, Memory>
    ensures { IfOk result (λ told. IsToldOfRefusal text.now fault.now told.items) }
{
    match fault {
        RunFault::Text(ReadRefused::Memory) => Err(Memory),
        RunFault::Text(refused) => { tell_text(alloc, text, fault, refused) }
        RunFault::Network(cause) => {
            let told = tell_cause(alloc, fault, cause)?;
            Ok(told)
        }
        _ => Err(Memory),
    }
}

/// What is said of a whole file of this plan.
fn explain_whole(alloc: Global, text: &[u8], plan: Plan) -> Result<Explanation, Memory>
    requires limit { length text.now ≤ most_bytes }
    requires read { Reads text.now (Ok plan) }
    ensures { IfOk result (λ told. IsTold text.now told.is_accepted told.text.items) }
{
    match check(alloc, plan) {
        Ok(accepted) => Ok(Explanation {
            text: tell_accepted(alloc, &accepted)?,
            is_accepted: true,
        }),
        Err(refusal) => {
            let found = offenders(alloc, &refusal.plan, &refusal.why)?;
            let fault = RunFault::Plan(refusal);
            Ok(Explanation {
                text: tell_plan(alloc, text, found.as_slice(), &fault)?,
                is_accepted: false,
            })
        }
    }
}

/// What is said of the short form of a file, if the plan of the file that was made of it is refused.
fn explain_short(alloc: Global, text: &[u8], refusal: Refusal) -> Result<Explanation, Memory>
    requires limit { length text.now ≤ most_bytes }
    requires read { ReadsFile text.now (Err (InPlan refusal)) }
    ensures { IfOk result (λ told. IsTold text.now told.is_accepted told.text.items) }
{
    let bare = match read_bare(alloc, text) {
        Ok(bare) => bare,
        Err(_) => return Err(Memory),
    };
    let found = offenders(alloc, &refusal.plan, &refusal.why)?;
    let found = all_in_short(alloc, &bare, found)?;
    let fault = RunFault::Plan(refusal);
    Ok(Explanation {
        text: tell_plan(alloc, text, found.as_slice(), &fault)?,
        is_accepted: false,
    })
}

/// Writes what is wrong in the text of a network file and where, or what its network has. The short form of a file is explained as the
/// network that it is labelled to. The call fails only when out of memory.
pub fn explain(alloc: Global, text: &[u8]) -> Result<Explanation, Memory>
    requires { length text.now ≤ most_bytes }
    ensures { IfOk result (λ told. IsTold text.now told.is_accepted told.text.items) }
{
    match read_file(alloc, text) {
        Ok(NetworkFile::Whole(plan)) => explain_whole(alloc, text, plan),
        Ok(NetworkFile::Short(accepted)) => Ok(Explanation {
            text: tell_accepted(alloc, &accepted)?,
            is_accepted: true,
        }),
        Err(RunFault::Plan(refusal)) => explain_short(alloc, text, refusal),
        Err(fault) => Ok(Explanation {
            text: tell_refusal(alloc, text, &fault)?,
            is_accepted: false,
        }),
    }
}

/// Reads a network file, and writes what is wrong in it and where, or what its network has. The answer is whether the network is
/// accepted. Where the reader fails, or for want of memory, nothing is written; where the writer fails, a front of the text was.
pub fn run_explain<R: Read, W: Write>(
    alloc: Global,
    reader: &mut R,
    writer: &mut W,
) -> Result<bool, RunFault>
    ensures { Explains (R.remaining reader.old)
        (W.contents writer.old) (W.contents writer.new) result }
{
    let text = read_all(alloc, reader)?;
    let told = explain(alloc, text.as_slice())?;
    match write_text(writer, told.text.as_slice()) {
        Ok(()) => Ok(told.is_accepted),
        Err(fault) => Err(fault),
    }
}
