//! Files that the words of a command line name.
use crate::networks::HELLO;
use crate::streams::Failing;
use std::sync::Wait;
use std::thread::Threads;
use vc_words::{Meter, NamedFiles, run_words};

const REPLAY: &[&str] = &["vcnet", "replay", "--events", "first.trace"];

/// What is printed after the events of `first.trace`.
const TRAFFIC: &str = "channel c offered 1 taken 0 finished 0\nend limit\n";

/// What one event of the network prints.
const ONE_EVENT: &str = "channel c offered 0 taken 0 finished 0\nend limit\n";

/// Opens a file of one event, `first.trace`, and a network, `hello.json`.
#[derive(Drop)]
struct TwoFiles<R> {
    rt: R,
}

impl<R: Threads> Threads for TwoFiles<R> {}

impl<R: Wait> Wait for TwoFiles<R> {}

impl<R> NamedFiles for TwoFiles<R> {
    type File = &'static [u8];

    fn open_named(&self, name: &str) -> Option<&'static [u8]> {
        match name {
            "first.trace" => Some(b"event a proc offer 0 c\n"),
            "hello.json" => Some(HELLO.as_bytes()),
            _ => None,
        }
    }
}

#[test]
fn a_replay_makes_the_events_of_the_file_that_it_names(rt: HostRuntime) {
    let mut printed = Vec::new(rt.alloc());
    let files = TwoFiles { rt: &rt };
    let meter = Meter::new();
    let status = run_words(
        &files,
        rt.alloc(),
        REPLAY,
        &mut HELLO.as_bytes(),
        &mut printed,
        &meter,
    );
    assert_eq!(rt; (status, printed.as_slice()), (3, TRAFFIC.as_bytes()));
}

#[test]
fn a_replay_says_that_its_file_is_not_there(rt: HostRuntime) {
    let mut printed = Vec::new(rt.alloc());
    let files = TwoFiles { rt: &rt };
    let words = &["vcnet", "replay", "--events", "second.trace"];
    let meter = Meter::new();
    let status = run_words(
        &files,
        rt.alloc(),
        words,
        &mut HELLO.as_bytes(),
        &mut printed,
        &meter,
    );
    assert_eq!(rt;
        (status, printed.as_slice()),
        (6, b"fault events\n".as_slice())
    );
}

#[test]
fn a_replay_reads_the_network_first(rt: HostRuntime) {
    let mut printed = Vec::new(rt.alloc());
    let files = TwoFiles { rt: &rt };
    let words = &["vcnet", "replay", "--events", "second.trace"];
    let mut reader = Failing {
        rest: HELLO.as_bytes(),
        reads_left: 0,
    };
    let meter = Meter::new();
    let status = run_words(&files, rt.alloc(), words, &mut reader, &mut printed, &meter);
    assert_eq!(rt;
        (status, printed.as_slice()),
        (6, b"fault read\n".as_slice())
    );
}

#[test]
fn a_network_is_read_from_the_file_that_is_named(rt: HostRuntime) {
    let mut printed = Vec::new(rt.alloc());
    let files = TwoFiles { rt: &rt };
    let words = &["vcnet", "step", "--limit", "1", "hello.json"];
    let mut reader = Failing {
        rest: HELLO.as_bytes(),
        reads_left: 0,
    };
    let meter = Meter::new();
    let status = run_words(&files, rt.alloc(), words, &mut reader, &mut printed, &meter);
    assert_eq!(rt; (status, printed.as_slice()), (3, ONE_EVENT.as_bytes()));
}

#[test]
fn a_network_file_that_is_not_there_is_reported(rt: HostRuntime) {
    let mut printed = Vec::new(rt.alloc());
    let files = TwoFiles { rt: &rt };
    let words = &["vcnet", "check", "second.json"];
    let meter = Meter::new();
    let status = run_words(
        &files,
        rt.alloc(),
        words,
        &mut HELLO.as_bytes(),
        &mut printed,
        &meter,
    );
    assert_eq!(rt;
        (status, printed.as_slice()),
        (6, b"fault file\n".as_slice())
    );
}
