//! Runs in which any one allocation may be refused: with ample memory they end as ever, and else the answer says what is short.
use crate::networks::{HELLO, HELLO_TRAFFIC, SQUARES, SQUARES_TRAFFIC, accepted};
use crate::streams::Kept;
use std::alloc::Global;
use std::sync::Wait;
use std::thread::Threads;
use vc_blocks::Messages;
use vc_core::{Close, Network, replay};
use vc_plan::{CheckRefused, Refusal};
use vc_reader::ReadRefused;
use vc_text::{RunFault, run_net, run_step};
use vc_threads::Report;

/// Whether a run was refused since memory was short.
fn is_short(fault: &RunFault) -> bool {
    matches!(
        fault,
        RunFault::Memory
            | RunFault::Text(ReadRefused::Memory)
            | RunFault::Plan(Refusal {
                why: CheckRefused::Memory,
                ..
            })
    )
}

/// Whether a run writes the traffic, or is refused since memory was short, and then writes nothing.
fn steps(alloc: Global, network: &str, traffic: &str) -> bool {
    let mut kept = Kept::new();
    match run_step(alloc, &mut network.as_bytes(), &mut kept, 1_000_000) {
        Ok(_) => kept.written() == traffic.as_bytes(),
        Err(fault) => is_short(&fault) && kept.len == 0,
    }
}

#[test]
fn a_run_of_the_hello_network_is_whole_or_writes_nothing(rt: HostRuntime) {
    assert!(rt; steps(rt.alloc(), HELLO, HELLO_TRAFFIC));
}

#[test]
fn a_run_of_the_squares_network_is_whole_or_writes_nothing(rt: HostRuntime) {
    assert!(rt; steps(rt.alloc(), SQUARES, SQUARES_TRAFFIC));
}

/// Each message is there, in order.
fn same_messages(left: Messages<'_>, right: Messages<'_>) -> bool {
    left.len() == right.len() && left.iter().zip(right.iter()).all(|(x, y)| x == y)
}

/// Whether two networks show the same of their first channel.
fn show_the_same(left: &Network, right: &Network) -> bool {
    same_messages(left.offered(0), right.offered(0))
        && same_messages(left.taken(0), right.taken(0))
        && left.finished(0) == right.finished(0)
        && left.stopped(0) == right.stopped(0)
        && left.place(0) == right.place(0)
}

/// Whether the steps of a run of the squares network lead to what it shows.
fn replays(alloc: Global, report: &Report) -> bool {
    let Some(accepted) = accepted(alloc, SQUARES) else {
        return false;
    };
    match replay(alloc, &accepted, report.steps.as_slice()) {
        Ok(again) => show_the_same(&again, &report.state),
        Err(_) => false,
    }
}

/// Whether this is written of the squares network by a run in threads that ends so.
fn is_written_by(written: &[u8], close: Close) -> bool {
    match close {
        Close::Done => written == SQUARES_TRAFFIC.as_bytes(),
        Close::Failed(_) => written.ends_with(b"end memory\n"),
        Close::Limit => written.ends_with(b"end limit\n"),
        _ => false,
    }
}

/// Whether a run in threads of the squares network reports steps that lead to what it shows and writes, or gives no report and writes
/// nothing. The replay is made again, since it may be what finds no memory.
fn nets<T: Threads + Wait + Sync>(rt: &T, alloc: Global) -> bool {
    let mut kept = Kept::new();
    match run_net(rt, alloc, &mut SQUARES.as_bytes(), &mut kept, 200_000, 0) {
        Ok(report) => {
            is_written_by(kept.written(), report.close)
                && (replays(alloc, &report) || replays(alloc, &report))
        }
        Err(RunFault::Threads(_)) => kept.len == 0,
        Err(fault) => is_short(&fault) && kept.len == 0,
    }
}

#[test]
fn a_run_in_threads_replays_or_writes_nothing(rt: HostRuntime) {
    assert!(rt; nets(&rt, rt.alloc()));
}
