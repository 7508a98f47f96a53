//! Packets that a switch sends on before their mark has come.
use crate::events::act;
use crate::networks::{SQUARES, accept};
use crate::play::Play;
use std::alloc::Global;
use std::test::Fail;
use vc_core::{Act, Event, Place};
use vc_occam::Move;

/// Nodes a and d output to b, and their packets leave switch s by one link.
const SHARED: &str =
    r#"{"version":1,"nodes":[{"name":"a","vars":[["i","int"]],"process":{"out":["c",3]}},{"name":"b","vars":[["k","int"],["x","int"]],"process":{"par":[{"in":["c","x"]},{"in":["e","k"]}]}},{"name":"d","process":{"out":["e",4]}}],"switches":[{"name":"s","table":[[0,10,0,0],[10,20,4,4],[20,30,1,1]],"delete":[0,1]},{"name":"t","table":[[0,10,4,4],[10,20,0,0],[20,30,4,4]],"delete":[0]}],"wires":[["a",0,"s",0],["b",0,"t",0],["s",4,"t",4],["s",5,"t",5],["s",6,"t",6],["s",7,"t",7],["d",0,"s",1]],"vlinks":[{"name":"v","a":["a",0,1,[10,1]],"b":["b",0,1,[0,1]]},{"name":"w","a":["d",0,1,[10,2]],"b":["b",0,2,[20,1]]}],"channels":[{"name":"c","kind":"int","vlink":"v","way":"ab"},{"name":"e","kind":"int","vlink":"w","way":"ab"}]}"#;

/// Node a, in both networks.
const A: u8 = 0;

/// The switches at nodes a and b of the squares network.
const S: u8 = 2;

const T: u8 = 3;

/// Node d and the switch at a and d of the network in which two nodes share a link.
const D: u8 = 2;

const SHARED_S: u8 = 3;

/// What happens to a network, or what it shows. The first number is an actor.
#[derive(Clone, Copy)]
enum Step {
    /// The act is enabled, and is made.
    Makes(u8, Act),
    /// The act is not enabled.
    Refuses(u8, Act),
    /// The packet of channel 0 is there.
    Stands(Place),
    /// All go on, the actors in turn, until the packet of channel 0 is there; and until then this act is not enabled.
    Waits(u8, Act, Place),
    /// The act was made so often.
    Made(u8, Act, usize),
}

/// Whether the act is enabled.
fn may(play: &Play, actor: u8, act: Act) -> bool {
    play.network.enabled(&Event { actor, act })
}

/// How often the act was made.
fn count(events: &[Event], actor: u8, act: Act) -> usize {
    let wanted = Event { actor, act };
    events.iter().filter(|event| **event == wanted).count()
}

/// An actor takes a token where one comes, and else makes its turn.
fn go_on(play: &mut Play, actor: u8) -> Result<(), Fail> {
    if let Some(link) = play.network.link_to_take(actor) {
        play.make(actor, Act::Take { link, word: 0 })?;
    } else if let Some(event) = play.network.turn(actor, &mut 0)? {
        play.events.push(event)?;
    }
    Ok(())
}

/// Whether the packet of channel 0 comes to a place, where the act is not enabled before.
fn waits(play: &mut Play, actor: u8, act: Act, place: Place) -> Result<bool, Fail> {
    for _ in 0..200 {
        for next in 0..play.network.actors().min(8) {
            if play.network.place(0) == Some(place) {
                return Ok(true);
            }
            if may(play, actor, act) {
                return Ok(false);
            }
            go_on(play, next)?;
        }
    }
    Ok(false)
}

/// Whether the network takes this step.
fn takes(play: &mut Play, step: Step) -> Result<bool, Fail> {
    match step {
        Step::Makes(actor, act) => play.make(actor, act),
        Step::Refuses(actor, act) => Ok(!may(play, actor, act)),
        Step::Stands(place) => Ok(play.network.place(0) == Some(place)),
        Step::Waits(actor, act, place) => waits(play, actor, act, place),
        Step::Made(actor, act, times) => Ok(count(play.events.as_slice(), actor, act) == times),
    }
}

/// The place of the first step that the network does not take.
fn wrong_step(alloc: Global, text: &str, steps: &[Step]) -> Result<Option<usize>, Fail> {
    let mut play = Play::begin(alloc, &accept(alloc, text)?)?;
    for (place, step) in steps.iter().enumerate() {
        if !takes(&mut play, *step)? {
            return Ok(Some(place));
        }
    }
    Ok(None)
}

/// Switch s binds a's packet once its two bytes `00 0a` have passed, and puts them, though their mark is still at a. The packet has 13
/// tokens as a puts it, and 11 as t puts it, which deletes the header of s and t.
const FORWARDS: &[Step] = &[
    Step::Makes(S, act!(Fct 0)),
    Step::Makes(A, act!(take 0 0)),
    Step::Makes(A, act!(offer 1 on 0)),
    Step::Makes(A, act!(Put 0)),
    Step::Makes(S, act!(take 0 0)),
    Step::Makes(S, act!(Pass 0)),
    Step::Refuses(S, act!(0 to 4)),
    Step::Makes(A, act!(Put 0)),
    Step::Makes(S, act!(take 0 0)),
    Step::Refuses(S, act!(0 to 4)),
    Step::Makes(S, act!(Pass 0)),
    Step::Makes(S, act!(0 to 4)),
    Step::Refuses(S, act!(Put 4)),
    Step::Makes(T, act!(Fct 4)),
    Step::Makes(S, act!(take 4 0)),
    Step::Stands(Place::Queue(A)),
    Step::Makes(S, act!(Put 4)),
    Step::Makes(S, act!(Put 4)),
    Step::Refuses(S, act!(Put 4)),
    Step::Makes(T, act!(take 4 0)),
    Step::Makes(T, act!(Pass 4)),
    Step::Refuses(T, act!(4 to 0)),
    Step::Makes(T, act!(take 4 0)),
    Step::Makes(T, act!(Pass 4)),
    Step::Makes(T, act!(4 to 0)),
    Step::Stands(Place::Queue(A)),
    Step::Waits(S, act!(0 to 4), Place::Wire(0, true)),
    Step::Made(A, act!(Put 0), 13),
    Step::Waits(S, act!(0 to 4), Place::Wire(1, false)),
    Step::Made(T, act!(Put 0), 11),
];

/// Both packets' headers are at switch s. Where a's is bound to link 4, d's waits until the mark of a's was put, its thirteenth token.
const SHARES: &[Step] = &[
    Step::Makes(SHARED_S, act!(Fct 0)),
    Step::Makes(SHARED_S, act!(Fct 1)),
    Step::Makes(A, act!(take 0 0)),
    Step::Makes(D, act!(take 0 0)),
    Step::Makes(A, act!(offer 0 on 0)),
    Step::Makes(D, act!(offer 0 on 1)),
    Step::Makes(A, act!(Put 0)),
    Step::Makes(A, act!(Put 0)),
    Step::Makes(D, act!(Put 0)),
    Step::Makes(D, act!(Put 0)),
    Step::Makes(SHARED_S, act!(take 0 0)),
    Step::Makes(SHARED_S, act!(take 0 0)),
    Step::Makes(SHARED_S, act!(Pass 0)),
    Step::Makes(SHARED_S, act!(Pass 0)),
    Step::Makes(SHARED_S, act!(take 1 0)),
    Step::Makes(SHARED_S, act!(take 1 0)),
    Step::Makes(SHARED_S, act!(Pass 1)),
    Step::Makes(SHARED_S, act!(Pass 1)),
    Step::Makes(SHARED_S, act!(0 to 4)),
    Step::Waits(SHARED_S, act!(1 to 4), Place::Wire(2, true)),
    Step::Made(SHARED_S, act!(Put 4), 13),
    Step::Makes(SHARED_S, act!(1 to 4)),
];

#[test]
fn a_packet_goes_on_before_its_mark(rt: HostRuntime) -> Result<(), Fail> {
    assert_eq!(rt; wrong_step(rt.alloc(), SQUARES, FORWARDS)?, None);
    assert_eq!(rt; wrong_step(rt.alloc(), SHARED, SHARES)?, None);
    Ok(())
}
