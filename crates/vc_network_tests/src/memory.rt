//! Networks whose events are made one by one, where any one allocation may be refused: what was refused is made again.
use crate::networks::{HELLO, SQUARES, accept, accepted};
use std::alloc::Global;
use std::test::Fail;
use vc_core::{Act, Event, Network, StepRefused};
use vc_packets::Memory;
use vc_plan::Accepted;

/// The network of a text that is accepted.
fn accept_again(alloc: Global, text: &str) -> Result<Accepted, Fail> {
    match accepted(alloc, text) {
        Some(accepted) => Ok(accepted),
        None => accept(alloc, text),
    }
}

/// The network, about to begin.
fn begin_again(alloc: Global, accepted: &Accepted) -> Result<Network, Memory> {
    match Network::new(alloc, accepted) {
        Ok(network) => Ok(network),
        Err(Memory) => Network::new(alloc, accepted),
    }
}

/// What an actor does next: a take where a token comes, and else its turn.
fn next_event(network: &mut Network, actor: u8) -> Result<Option<Event>, Memory> {
    if let Some(link) = network.link_to_take(actor) {
        let act = Act::Take { link, word: 0 };
        return Ok(Some(Event { actor, act }));
    }
    match network.next(actor) {
        Ok(event) => Ok(event),
        Err(Memory) => network.next(actor),
    }
}

/// Makes an event. Where it is refused for want of memory, it is still enabled, and is made again.
fn make(network: &mut Network, event: &Event) -> bool {
    match network.step(event) {
        Ok(()) => true,
        Err(StepRefused::Memory) => network.enabled(event) && network.step(event).is_ok(),
        Err(StepRefused::NotEnabled) => false,
    }
}

/// Whether each actor makes what it does next, in rounds, until all has ended.
fn ends(network: &mut Network) -> Result<bool, Memory> {
    for _ in 0..1000 {
        for actor in 0..network.actors() {
            if let Some(event) = next_event(network, actor)? {
                if !make(network, &event) {
                    return Ok(false);
                }
            }
        }
    }
    Ok(network.ended())
}

/// Whether all has ended, where each message is taken and each output finished.
fn takes_all(alloc: Global, text: &str, messages: &[&[u8]]) -> Result<bool, Fail> {
    let accepted = accept_again(alloc, text)?;
    let mut network = begin_again(alloc, &accepted)?;
    Ok(
        ends(&mut network)?
            && network.finished(0) == messages.len() as u64
            && network.taken(0).len() == messages.len()
            && network
                .taken(0)
                .iter()
                .zip(messages)
                .all(|(taken, message)| taken == *message),
    )
}

#[test]
fn what_memory_refused_is_made_again(rt: HostRuntime) -> Result<(), Fail> {
    assert!(rt; takes_all(rt.alloc(), HELLO, &[b"hello"])?);
    Ok(())
}

#[test]
fn what_memory_refused_at_a_switch_is_made_again(rt: HostRuntime) -> Result<(), Fail> {
    let numbers: [&[u8]; 3] = [
        &[0; 8],
        &[1, 0, 0, 0, 0, 0, 0, 0],
        &[4, 0, 0, 0, 0, 0, 0, 0],
    ];
    assert!(rt; takes_all(rt.alloc(), SQUARES, &numbers)?);
    Ok(())
}
