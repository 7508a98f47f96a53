//! The words of a command line over streams that fail. What each command prints is shown by the program examples.
use crate::networks::{HELLO, HELLO_TRAFFIC};
use crate::streams::{Failing, Stubborn};
use std::alloc::Global;
use std::sync::Wait;
use std::thread::Threads;
use vc_words::{Meter, NamedFiles, run_words};

const STEP: &[&str] = &["vcnet", "step"];

/// The status and what is printed, where the reader fails at the read of that number.
fn read_fails<T: NamedFiles + Threads + Wait + Sync>(
    rt: &T,
    alloc: Global,
    words: &[&str],
    reads_left: usize,
) -> (u8, Vec<u8>) {
    let mut reader = Failing {
        rest: HELLO.as_bytes(),
        reads_left,
    };
    let mut printed = Vec::new(alloc);
    let status = run_words(rt, alloc, words, &mut reader, &mut printed, &Meter::new());
    (status, printed)
}

/// Lines that ask for nothing that the program does.
const BAD_LINES: &[&[&str]] = &[
    &["vcnet", "walk", ""],
    &["vcnet", "step", "--limit"],
    &["vcnet", "step", "--limit=1000000001"],
    &["vcnet", "run", "--turns=1000000001"],
    &["vcnet", "run", "--seed=4294967296"],
    &["vcnet"],
];

#[test]
fn a_bad_line_reads_nothing(rt: HostRuntime) {
    for words in BAD_LINES {
        let (status, _) = read_fails(&rt, rt.alloc(), words, 0);
        assert_eq!(rt; status, 5);
    }
}

#[test]
fn help_reads_nothing(rt: HostRuntime) {
    for words in [&["vcnet", "--help"], &["vcnet", "help"]] {
        let (status, printed) = read_fails(&rt, rt.alloc(), words, 0);
        assert!(rt; status == 0 && !printed.is_empty());
    }
}

#[test]
fn a_failed_read_is_a_fault(rt: HostRuntime) {
    for reads_left in [0, 1, HELLO.len() / 2, HELLO.len()] {
        let (status, printed) = read_fails(&rt, rt.alloc(), STEP, reads_left);
        assert_eq!(rt;
            (status, printed.as_slice()),
            (6, b"fault read\n".as_slice())
        );
    }
}

/// Whether the status is 6, and a front of the traffic is printed, where the writer fails at the write of that number.
fn write_fails<T: NamedFiles + Threads + Wait + Sync>(
    rt: &T,
    alloc: Global,
    calls_left: usize,
) -> bool {
    let mut reader = HELLO.as_bytes();
    let mut writer = Stubborn {
        taken: Vec::new(alloc),
        calls_left,
        fails: true,
    };
    let status = run_words(rt, alloc, STEP, &mut reader, &mut writer, &Meter::new());
    status == 6 && Some(writer.taken.as_slice()) == HELLO_TRAFFIC.as_bytes().get(..calls_left)
}

#[test]
fn a_failed_write_leaves_a_front(rt: HostRuntime) {
    for calls_left in 0..HELLO_TRAFFIC.len() {
        assert!(rt;
            write_fails(&rt, rt.alloc(), calls_left),
            "at write {calls_left}"
        );
    }
}
