//! What is asked of a process as it is written.
use crate::read::read;
use std::alloc::Global;
use std::test::Fail;
use vc_occam::{ChannelUse, Datum, Expr, Process, ValueKind};
use vc_packets::{Bytes, Memory};

/// How many processes are written, where they are at most four and at most three; and whether they are at most three deep, and two.
fn counted(process: &Process) -> (Option<u32>, Option<u32>, bool, bool) {
    (
        process.sites(4),
        process.sites(3),
        process.is_within(3),
        process.is_within(2),
    )
}

#[test]
fn processes_are_counted_and_their_depth_too(rt: HostRuntime) -> Result<(), Fail> {
    let plan = read(rt.alloc(), r#"{"seq":["skip",{"for":["x",0,1,"skip"]}]}"#)?;
    let node = plan.nodes.get(0).ok_or("a node")?;
    assert_eq!(rt; counted(&node.process), (Some(4), None, true, false));
    Ok(())
}

/// The kinds of the variables.
const KINDS: &[ValueKind] = &[
    ValueKind::Int,
    ValueKind::Int,
    ValueKind::Bytes,
    ValueKind::Bytes,
];

/// A use of a channel.
fn used(chan: u16, is_output: bool, kind: Option<ValueKind>) -> ChannelUse {
    ChannelUse {
        chan,
        is_output,
        kind,
    }
}

#[test]
fn uses_of_channels_are_listed_by_site(rt: HostRuntime) -> Result<(), Fail> {
    let plan = read(
        rt.alloc(),
        r#"{"seq":[{"out":["c3","s"]},{"alt":[[true,"c1","y",{"stopch":"c4"}]]},{"in":["c3","t"]},{"out":["c0",7]}]}"#,
    )?;
    let node = plan.nodes.get(0).ok_or("a node")?;
    let uses = node.process.channel_uses(rt.alloc(), KINDS)?;
    let wanted = [
        used(3, true, Some(ValueKind::Bytes)),
        used(1, false, Some(ValueKind::Int)),
        used(4, false, None),
        used(3, false, Some(ValueKind::Bytes)),
        used(0, true, Some(ValueKind::Int)),
    ];
    assert_eq!(rt; uses.as_slice(), wanted.as_slice());
    Ok(())
}

/// Outputs, and the messages of what they are worth, where they have a worth, and the same of their bytes alone. The variable `x` is 7,
/// and `s` is `ab`.
const WORTHS: &[(&str, Option<&[u8]>, Option<&[u8]>)] = &[
    (
        r#"{"out":["c0",["-","x",1]]}"#,
        Some(&[6, 0, 0, 0, 0, 0, 0, 0]),
        None,
    ),
    (r#"{"out":["c0",["/","x",0]]}"#, None, None),
    (r#"{"out":["c3","s"]}"#, Some(b"ab"), Some(b"ab")),
    (
        r#"{"out":["c3",{"fill":[9,3]}]}"#,
        Some(&[9, 9, 9]),
        Some(&[9, 9, 9]),
    ),
];

/// Whether what an output is worth has this message, or there is none.
fn has_message(
    alloc: Global,
    worth: Option<Datum>,
    message: Option<&[u8]>,
) -> Result<bool, Memory> {
    match (worth, message) {
        (Some(datum), Some(message)) => Ok(datum.into_message(alloc)?.as_slice() == message),
        (None, None) => Ok(true),
        _ => Ok(false),
    }
}

/// Whether an output is worth this, and has these bytes.
fn is_worth(
    alloc: Global,
    process: &Process,
    worth: Option<&[u8]>,
    bytes: Option<&[u8]>,
) -> Result<bool, Memory> {
    let vars = [
        Datum::Int(7),
        Datum::Int(0),
        Datum::Bytes(Bytes::from_slice(alloc, b"ab")?),
        Datum::Bytes(Bytes::new(alloc)),
    ];
    match process {
        Process::Send { value, .. } => Ok(
            has_message(alloc, value.datum(alloc, &vars)?, worth)?
                && has_message(alloc, value.assigned_bytes(alloc, &vars)?, bytes)?,
        ),
        _ => Ok(false),
    }
}

#[test]
fn outputs_have_their_worth(rt: HostRuntime) -> Result<(), Fail> {
    for (process, worth, bytes) in WORTHS {
        let plan = read(rt.alloc(), process)?;
        let node = plan.nodes.get(0).ok_or("a node")?;
        assert!(rt;
            is_worth(rt.alloc(), &node.process, *worth, *bytes)?,
            "{process}"
        );
    }
    Ok(())
}

#[test]
fn a_literal_has_depth_one(rt: HostRuntime) {
    let literal = Expr::Num(7);
    assert!(rt; literal.is_within(1) && !literal.is_within(0));
}
