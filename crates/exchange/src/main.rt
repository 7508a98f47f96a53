//! One exchange, event by event: two nodes on one wire, of which the first outputs `hello` and the second never inputs. The program
//! makes the events by which the message's packet comes over, and prints after each where the packet is, or that the event could
//! not be made. It shows the libraries at work without the simulator: read, check, begin, step.
#![tactic(auto)]

use std::alloc::{AllocError, Global};
use std::io::Write;
use std::process::ExitCode;
use vc_core::{Act, Event, Network, StepRefused};
use vc_occam::Move;
use vc_plan::check;
use vc_reader::read_network;

const NETWORK: &str =
    r#"{"version":1,"nodes":[{"name":"a","process":{"out":["c",{"text":"hello"}]}},{"name":"b","vars":[["m","bytes"]],"process":{"in":["c","m"]}}],"wires":[["a",0,"b",0]],"vlinks":[{"name":"v","a":["a",0,1,[1]],"b":["b",0,1,[1]]}],"channels":[{"name":"c","kind":"bytes","vlink":"v","way":"ab"}]}"#;

/// The channel on which the message goes.
const CHANNEL: u16 = 0;

/// The first process offers its message.
const OUTPUT: Act = Act::Proc(Move::Offer { site: 0, chan: 0 });

/// A token comes over link 0.
const TAKE: Act = Act::Take { link: 0, word: 0 };

/// So often one actor does one thing.
fn times(events: &mut Vec<Event>, count: u32, actor: u8, act: Act) -> Result<(), AllocError> {
    for _ in 0..count {
        events.push(Event { actor, act })?;
    }
    Ok(())
}

/// The events of the exchange. A token is put only once eight places were granted, and no more than eight.
fn exchange(alloc: Global) -> Result<Vec<Event>, AllocError> {
    let mut events = Vec::new(alloc);
    times(&mut events, 1, 0, OUTPUT)?;
    times(&mut events, 1, 0, Act::Put { link: 0 })?;
    times(&mut events, 1, 1, Act::Fct { link: 0 })?;
    times(&mut events, 1, 0, TAKE)?;
    times(&mut events, 9, 0, Act::Put { link: 0 })?;
    times(&mut events, 8, 1, TAKE)?;
    times(&mut events, 8, 1, Act::Pass { link: 0 })?;
    Ok(events)
}

/// The network as it begins; nothing where memory is short.
fn opening(alloc: Global) -> Option<Network> {
    let plan = read_network(alloc, NETWORK.as_bytes()).ok()?;
    let accepted = check(alloc, plan).ok()?;
    Network::new(alloc, &accepted).ok()
}

fn main(rt: HostRuntime) -> std::io::Result<ExitCode> {
    let alloc = rt.alloc();
    let Some(mut network) = opening(alloc) else {
        return Ok(ExitCode::FAILURE);
    };
    let mut out = rt.stdout();
    for event in exchange(alloc)?.as_slice() {
        match network.step(event) {
            Ok(()) => {
                let place = network.place(CHANNEL);
                writeln!(out, "actor {} {:?}: {:?}", event.actor, event.act, place)?;
            }
            Err(StepRefused::NotEnabled) => {
                writeln!(out, "actor {} {:?}: not enabled", event.actor, event.act)?;
            }
            Err(StepRefused::Memory) => return Ok(ExitCode::FAILURE),
        }
    }
    Ok(ExitCode::SUCCESS)
}
