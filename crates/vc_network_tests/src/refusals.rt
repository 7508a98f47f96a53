//! A list of events that is refused, and a network that is put together.
use crate::events::{act, event};
use crate::networks::{HELLO, accept, replayed};
use crate::play::same_view;
use std::alloc::Global;
use std::test::Fail;
use vc_core::{Act, Event, Network, ReplayRefused, StepRefused, actors, replay};
use vc_occam::Move;
use vc_plan::Accepted;
use vc_tokens::Token;

/// Events of the hello network. The last but two is not enabled, since node a has no credit.
const EVENTS: &[Event] = &[
    event!(0, Fct 0),
    event!(1, take 0 7),
    event!(0, offer 0 on 0),
    event!(0, Put 0),
    event!(1, Fct 0),
    event!(0, take 0 7),
];

/// Whether the network is the one after the first three events: it shows the same, and goes on by the two after the refused one, and
/// then by that one.
fn goes_on(network: &mut Network, before: &Network) -> bool {
    network.offered(0).len() == 1
        && same_view(network, before, 0)
        && network.step(&EVENTS[4]).is_ok()
        && network.step(&EVENTS[5]).is_ok()
        && network.step(&EVENTS[3]).is_ok()
}

/// Whether the list is refused at its event 3, which is not enabled, and the network before it is given back.
fn is_refused(alloc: Global, accepted: &Accepted) -> Result<bool, Fail> {
    let before = replayed(alloc, accepted, &EVENTS[..3])?;
    match replay(alloc, accepted, EVENTS) {
        Ok(_) => Ok(false),
        Err(refused) => {
            let ReplayRefused { index, state, why } = refused;
            let is_told = index == 3 && why == StepRefused::NotEnabled;
            match state {
                Some(mut network) => Ok(is_told && goes_on(&mut network, &before)),
                None => Ok(false),
            }
        }
    }
}

#[test]
fn the_first_event_that_is_refused_is_told(rt: HostRuntime) -> Result<(), Fail> {
    let accepted = accept(rt.alloc(), HELLO)?;
    assert!(rt; is_refused(rt.alloc(), &accepted)?);
    Ok(())
}

/// Whether a network that is put together of actors that begin and of one token on the way to node b is that after node a's first
/// event: node b can take the token, and node a none.
fn is_put_together(alloc: Global, accepted: &Accepted) -> Result<bool, Fail> {
    let begun = actors(alloc, accepted)?;
    let mut first = Vec::new(alloc);
    first.push(Token::Fct)?;
    let mut ways = Vec::new(alloc);
    ways.push(first)?;
    ways.push(Vec::new(alloc))?;
    if ways.len() != 2 * accepted.plan().wires.len() {
        return Ok(false);
    }
    let mut network = Network::of_parts(alloc, accepted, begun, ways.as_slice())?;
    let links = (network.link_to_take(1), network.link_to_take(0));
    let before = Network::new(alloc, accepted)?;
    Ok(
        links == (Some(0), None)
            && same_view(&network, &before, 0)
            && network.step(&EVENTS[1]).is_ok(),
    )
}

#[test]
fn a_network_is_put_together(rt: HostRuntime) -> Result<(), Fail> {
    let accepted = accept(rt.alloc(), HELLO)?;
    assert!(rt; is_put_together(rt.alloc(), &accepted)?);
    Ok(())
}
