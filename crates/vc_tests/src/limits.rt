//! Runs that end after so many events.
use crate::networks::{CHOICE, CROSSING, HELLO, accept, replayed};
use std::alloc::Global;
use std::test::Fail;
use vc_core::{Close, Event};
use vc_text::{run_step, write_traffic};

/// The traffic of a network after these events.
fn traffic_after(
    alloc: Global,
    text: &str,
    events: &[Event],
    close: Close,
) -> Result<Vec<u8>, Fail> {
    let accepted = accept(alloc, text)?;
    let network = replayed(alloc, &accepted, events)?;
    let mut out = Vec::new(alloc);
    write_traffic(alloc, &network, close, &mut out)
        .ok()
        .ok_or("a traffic")?;
    Ok(out)
}

/// How many events a run makes, how it closes, and whether its events lead to the traffic that it wrote.
fn run(alloc: Global, text: &str, limit: u64) -> Result<(usize, Close, bool), Fail> {
    let mut out: Vec<u8> = Vec::new(alloc);
    let report = run_step(alloc, &mut text.as_bytes(), &mut out, limit)
        .ok()
        .ok_or("a run")?;
    let events = report.events.to_vec(alloc)?;
    let traffic = traffic_after(alloc, text, events.as_slice(), report.close)?;
    Ok((
        report.events.len(),
        report.close,
        traffic.as_slice() == out.as_slice(),
    ))
}

/// How many events the hello network has in all.
const ALL: usize = 45;

#[test]
fn a_run_ends_after_each_number_of_events(rt: HostRuntime) -> Result<(), Fail> {
    for limit in 0..ALL {
        assert_eq!(rt;
            run(rt.alloc(), HELLO, limit as u64)?,
            (limit, Close::Limit, true)
        );
    }
    assert_eq!(rt;
        run(rt.alloc(), HELLO, ALL as u64)?,
        (ALL, Close::Done, true)
    );
    Ok(())
}

/// Networks, limits, how many events are made then, and how the run closes.
const RUNS: &[(&str, u64, usize, Close)] = &[
    (HELLO, 1_000_000, ALL, Close::Done),
    (CHOICE, 102, 102, Close::Limit),
    (CHOICE, 103, 103, Close::Done),
    (CROSSING, 3000, 3000, Close::Limit),
];

#[test]
fn a_run_ends_after_all_events_or_so_many(rt: HostRuntime) -> Result<(), Fail> {
    for (text, limit, events, close) in RUNS {
        assert_eq!(rt;
            run(rt.alloc(), text, *limit)?,
            (*events, *close, true),
            "{limit} events"
        );
    }
    Ok(())
}
