//! An acknowledge that overtakes a piece by another link of its group.
use crate::networks::{accept, replayed};
use crate::play::Play;
use std::alloc::Global;
use std::test::Fail;
use vc_core::{Act, Event, Network};
use vc_occam::Move;
use vc_plan::Accepted;

/// Two nodes that output to each other, each by a switch of its own, and four wires between the switches.
const CROSSED: &str =
    r#"{"version":1,"nodes":[{"name":"a","vars":[["i","int"]],"process":{"par":[{"out":["c",3]},{"in":["d","i"]}]}},{"name":"b","vars":[["x","int"]],"process":{"par":[{"in":["c","x"]},{"out":["d",4]}]}}],"switches":[{"name":"s","table":[[0,10,0,0],[10,20,4,7]],"delete":[0]},{"name":"t","table":[[0,10,4,7],[10,20,0,0]],"delete":[0]}],"wires":[["a",0,"s",0],["b",0,"t",0],["s",4,"t",4],["s",5,"t",5],["s",6,"t",6],["s",7,"t",7]],"vlinks":[{"name":"v","a":["a",0,1,[10,1]],"b":["b",0,1,[0,1]]}],"channels":[{"name":"c","kind":"int","vlink":"v","way":"ab"},{"name":"d","kind":"int","vlink":"v","way":"ba"}]}"#;

/// The switches at nodes a and b.
const S: u8 = 2;

const T: u8 = 3;

/// The network as it goes on.
#[derive(Drop)]
struct Crossing {
    play: Play,
    /// Nothing is taken at link 4 of switch t.
    holds: bool,
}

impl Crossing {
    fn begin(alloc: Global, accepted: &Accepted) -> Result<Crossing, Fail> {
        Ok(Crossing {
            play: Play::begin(alloc, accepted)?,
            holds: true,
        })
    }

    /// Moves tokens at a link of an actor.
    fn move_tokens(&mut self, actor: u8, link: u8) -> Result<(), Fail> {
        if !(self.holds && actor == T && link == 4) {
            self.play.make(actor, Act::Take { link, word: 0 })?;
        }
        self.play.make(actor, Act::Pass { link })?;
        self.play.make(actor, Act::Fct { link })?;
        self.play.make(actor, Act::Put { link })?;
        Ok(())
    }

    fn move_processes(&mut self) -> Result<(), Fail> {
        for site in 1..3 {
            for chan in 0..2 {
                for actor in 0..2 {
                    self.play
                        .make(actor, Act::Proc(Move::Offer { site, chan }))?;
                    self.play.make(actor, Act::Proc(Move::Want { site, chan }))?;
                }
            }
        }
        Ok(())
    }

    /// Goes on until nothing is left but to bind what node a sent to a link of the group from s to t.
    fn settle(&mut self) -> Result<(), Fail> {
        for _ in 0..60 {
            self.move_processes()?;
            self.move_tokens(0, 0)?;
            self.move_tokens(1, 0)?;
            for link in 0..8 {
                self.move_tokens(S, link)?;
                self.move_tokens(T, link)?;
                self.play.make(
                    T,
                    Act::Route {
                        input: link,
                        output: 0,
                    },
                )?;
                self.play.make(
                    S,
                    Act::Route {
                        input: link,
                        output: 0,
                    },
                )?;
            }
            self.play.make(
                T,
                Act::Route {
                    input: 0,
                    output: 6,
                },
            )?;
        }
        Ok(())
    }
}

/// Whether b's output is finished before a's is taken, where a's piece of c leaves s by link 4 and stays on the wire, while a's
/// acknowledge for d goes by link 5. Then all goes on to its end.
fn overtakes(crossing: &mut Crossing) -> Result<bool, Fail> {
    crossing.settle()?;
    for output in [4, 5] {
        if !crossing.play.make(S, Act::Route { input: 0, output })? {
            return Ok(false);
        }
        crossing.settle()?;
    }
    let network = &crossing.play.network;
    let is_overtaken = network.finished(1) == 1 && network.taken(0).is_empty();
    crossing.holds = false;
    crossing.settle()?;
    Ok(is_overtaken)
}

/// The events in which the acknowledge overtakes the piece.
fn overtake(alloc: Global, accepted: &Accepted) -> Result<Vec<Event>, Fail> {
    let mut crossing = Crossing::begin(alloc, accepted)?;
    if overtakes(&mut crossing)? {
        Ok(crossing.play.events)
    } else {
        Err(Fail::from("an acknowledge that did not overtake"))
    }
}

/// Whether all has ended, with one message taken and one output finished on each channel, and nothing was dropped.
fn is_complete(network: &Network) -> bool {
    network.ended()
        && (network.strays(), network.lost()) == (0, 0)
        && (network.taken(0).len(), network.taken(1).len()) == (1, 1)
        && (network.finished(0), network.finished(1)) == (1, 1)
}

#[test]
fn an_acknowledge_overtakes_a_piece(rt: HostRuntime) -> Result<(), Fail> {
    let accepted = accept(rt.alloc(), CROSSED)?;
    let events = overtake(rt.alloc(), &accepted)?;
    let network = replayed(rt.alloc(), &accepted, events.as_slice())?;
    assert!(rt; is_complete(&network));
    Ok(())
}
