//! Which event a run by rounds makes next: whole lists of events, from networks of every word that chooses.
use crate::event_lists;
use crate::networks::{CHOICE, HELLO, MEETING, PORTALS, SQUARES, THREE_PARTS};
use std::alloc::{AllocError, Global};
use std::test::Fail;
use vc_core::{Act, Event};
use vc_occam::Move;
use vc_text::run_step;

/// A number of an act as it is written.
#[derive(Clone, Copy)]
enum Word {
    Number(u32),
    /// No guard.
    Dash,
    /// Nothing.
    Absent,
}

/// One number.
fn one(number: u32) -> [Word; 4] {
    [
        Word::Number(number),
        Word::Absent,
        Word::Absent,
        Word::Absent,
    ]
}

/// Two numbers.
fn two(first: u32, second: u32) -> [Word; 4] {
    [
        Word::Number(first),
        Word::Number(second),
        Word::Absent,
        Word::Absent,
    ]
}

/// The kind of a move, and its numbers.
fn parts_of_move(made: &Move) -> (&'static str, [Word; 4]) {
    match *made {
        Move::Offer { site, chan } => ("proc offer", two(site.into(), chan.into())),
        Move::Want { site, chan } => ("proc want", two(site.into(), chan.into())),
        Move::Choose { site, guard, chan } => (
            "proc choose",
            [
                Word::Number(site.into()),
                Word::Number(guard.into()),
                Word::Number(chan.into()),
                Word::Absent,
            ],
        ),
        Move::Stopch { site, chan } => ("proc stopch", two(site.into(), chan.into())),
        Move::Inner {
            sender,
            receiver,
            guard,
            chan,
        } => (
            "proc inner",
            [
                Word::Number(sender.into()),
                Word::Number(receiver.into()),
                match guard {
                    Some(guard) => Word::Number(guard.into()),
                    None => Word::Dash,
                },
                Word::Number(chan.into()),
            ],
        ),
        Move::Quiet { site } => ("proc quiet", one(site.into())),
    }
}

/// The kind of an act, and its numbers.
fn parts_of(act: &Act) -> (&'static str, [Word; 4]) {
    match act {
        Act::Proc(made) => parts_of_move(made),
        Act::Take { link, word } => ("take", two(u32::from(*link), *word)),
        Act::Put { link } => ("put", one(u32::from(*link))),
        Act::Route { input, output } => ("route", two(u32::from(*input), u32::from(*output))),
        Act::Fct { link } => ("fct", one(u32::from(*link))),
        Act::Pass { link } => ("pass", one(u32::from(*link))),
    }
}

/// The event as it is written.
fn line_of(alloc: Global, event: &Event) -> Result<String, AllocError> {
    let (kind, words) = parts_of(&event.act);
    let actor = event.actor;
    let mut line = format!(in alloc; "{actor} {kind}")?;
    for word in words {
        match word {
            Word::Number(number) => write!(line, " {number}")?,
            Word::Dash => line.push_str(" -")?,
            Word::Absent => {}
        }
    }
    line.push_str(";")?;
    Ok(line)
}

/// The number of the first event that is not the list's, from 0; or of the list's first that is missing.
fn first_other(alloc: Global, events: &[Event], list: &str) -> Result<Option<usize>, Fail> {
    let mut left = list.as_bytes();
    for (number, event) in events.iter().enumerate() {
        let line = line_of(alloc, event)?;
        match left.strip_prefix(line.as_bytes()) {
            Some(rest) => left = rest,
            None => return Ok(Some(number)),
        }
    }
    Ok(if left.is_empty() {
        None
    } else {
        Some(events.len())
    })
}

/// The same of the events of a network's run to its end.
fn first_other_of_run(alloc: Global, network: &str, list: &str) -> Result<Option<usize>, Fail> {
    let mut out: Vec<u8> = Vec::new(alloc);
    let report = run_step(alloc, &mut network.as_bytes(), &mut out, 1_000_000)
        .ok()
        .ok_or("a run")?;
    let events = report.events.to_vec(alloc)?;
    first_other(alloc, events.as_slice(), list)
}

/// Networks, and every event of each one's run.
const RUNS: &[(&str, &str)] = &[
    (HELLO, event_lists::HELLO),
    (SQUARES, event_lists::SQUARES),
    (CHOICE, event_lists::CHOICE),
    (PORTALS, event_lists::PORTALS),
    (MEETING, event_lists::MEETING),
    (THREE_PARTS, event_lists::THREE_PARTS),
];

#[test]
fn a_run_makes_its_events_in_order(rt: HostRuntime) -> Result<(), Fail> {
    for (network, list) in RUNS {
        assert_eq!(rt;
            first_other_of_run(rt.alloc(), network, list)?,
            None,
            "{network}"
        );
    }
    Ok(())
}
