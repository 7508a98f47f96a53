//! Traffic as it is written, writers that fail, and the lines of faults.
use crate::networks::{CROSSING, HELLO_TRAFFIC};
use crate::streams::Stubborn;
use std::alloc::{AllocError, Global};
use std::io::Write;
use std::test::Fail;
use vc_blocks::{MessageLog, Messages};
use vc_core::Close;
use vc_occam::ValueKind;
use vc_reader::read_network;
use vc_text::{ChannelView, RunFault, run_step, write_channels, write_fault};

/// The traffic of the hello network.
fn write_hello<W: Write>(alloc: Global, writer: &mut W) -> Result<(), RunFault> {
    let mut taken = MessageLog::new(alloc);
    taken.push(b"hello")?;
    let view = ChannelView {
        name: "c",
        kind: ValueKind::Bytes,
        offered: 1,
        taken: Messages::of(&taken),
        finished: 1,
        is_stopped: false,
    };
    write_channels(&[view], Close::Done, writer)
}

#[test]
fn writes_the_traffic(rt: HostRuntime) {
    let mut out = Vec::new(rt.alloc());
    assert!(rt; write_hello(rt.alloc(), &mut out).is_ok());
    assert_eq!(rt; out.as_slice(), HELLO_TRAFFIC.as_bytes());
}

/// Whether a fault is reported and a prefix of the traffic is written, where the writer fails or takes nothing at that call.
fn leaves_a_front(alloc: Global, calls_left: usize, fails: bool) -> bool {
    let mut writer = Stubborn {
        taken: Vec::new(alloc),
        calls_left,
        fails,
    };
    let is_told = matches!(write_hello(alloc, &mut writer), Err(RunFault::Write));
    is_told && Some(writer.taken.as_slice()) == HELLO_TRAFFIC.as_bytes().get(..calls_left)
}

#[test]
fn a_writer_that_fails_has_a_front(rt: HostRuntime) {
    for calls_left in 0..HELLO_TRAFFIC.len() {
        for fails in [false, true] {
            assert!(rt;
                leaves_a_front(rt.alloc(), calls_left, fails),
                "at call {calls_left}"
            );
        }
    }
}

/// The line of the fault of a text.
fn line_of(alloc: Global, text: &str) -> Result<Vec<u8>, RunFault> {
    let mut out = Vec::new(alloc);
    match read_network(alloc, text.as_bytes()) {
        Ok(_) => {}
        Err(refused) => write_fault(alloc, &RunFault::Text(refused), &mut out)?,
    }
    Ok(out)
}

fn is_refused_as(alloc: Global, text: &str, line: &str) -> bool {
    match line_of(alloc, text) {
        Ok(written) => written.as_slice() == line.as_bytes(),
        Err(_) => false,
    }
}

/// Texts that are refused, and the line of each refusal.
const REFUSED: &[(&str, &str)] = &[
    (r#"{"version":1"#, "refused 20 Json\n"),
    (r#"{"version":1}"#, "refused 21 Missing /nodes\n"),
    ("[]", "refused 22 Kind /\n"),
    (r#"{"version":3,"nodes":[]}"#, "refused 23 Range /version\n"),
    (
        r#"{"version":1,"nodes":[],"extra":0}"#,
        "refused 24 Unknown /\n",
    ),
    (
        r#"{"version":1,"nodes":[{"name":"a","process":"skip"},{"name":"b","vars":[["m","bytes"]],"process":{"in":["q","m"]}}]}"#,
        "refused 24 Unknown /nodes/1/process/in/0\n",
    ),
    (
        r#"{"version":1,"nodes":[{"name":"a","process":{"out":["c",{"fill":[7,65536]}]}}],"channels":[{"name":"c","kind":"bytes","node":"a"}]}"#,
        "refused 23 Range /nodes/0/process/out/1/fill/1\n",
    ),
];

#[test]
fn names_the_place_of_a_fault(rt: HostRuntime) {
    for (text, line) in REFUSED {
        assert!(rt; is_refused_as(rt.alloc(), text, line), "{line}");
    }
}

/// The traffic of two channels on each of which one message of 65,535 sevens was taken.
fn traffic_of_sevens(alloc: Global) -> Result<Vec<u8>, AllocError> {
    let mut out = Vec::new(alloc);
    for name in [b'c', b'd'] {
        out.extend_from_slice(b"channel ")?;
        out.push(name)?;
        out.extend_from_slice(b" offered 1 taken 1 finished 1\n  0 ")?;
        for _ in 0..65535 {
            out.extend_from_slice(b"07")?;
        }
        out.push(b'\n')?;
    }
    out.extend_from_slice(b"end done\n")?;
    Ok(out)
}

#[test]
fn the_longest_messages_cross(rt: HostRuntime) -> Result<(), Fail> {
    let wanted = traffic_of_sevens(rt.alloc())?;
    let mut reader = CROSSING.as_bytes();
    let mut out: Vec<u8> = Vec::new(rt.alloc());
    assert!(rt; run_step(rt.alloc(), &mut reader, &mut out, 10_000_000).is_ok());
    assert!(rt; out.as_slice() == wanted.as_slice());
    Ok(())
}
