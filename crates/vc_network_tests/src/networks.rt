//! Networks that several tests run.
use std::alloc::Global;
use std::test::Fail;
use vc_core::{Event, Network, replay};
use vc_plan::{Accepted, check};
use vc_reader::read_network;

/// Two nodes on one wire; the first outputs a text that the second inputs.
pub(crate) const HELLO: &str =
    r#"{"version":1,"nodes":[{"name":"a","process":{"out":["c",{"text":"hello"}]}},{"name":"b","vars":[["m","bytes"]],"process":{"in":["c","m"]}}],"wires":[["a",0,"b",0]],"vlinks":[{"name":"v","a":["a",0,1,[1]],"b":["b",0,1,[1]]}],"channels":[{"name":"c","kind":"bytes","vlink":"v","way":"ab"}]}"#;

/// A node that outputs on two virtual links side by side, and one that takes from whichever is ready.
pub(crate) const CHOICE: &str =
    r#"{"version":1,"nodes":[{"name":"a","process":{"par":[{"out":["c",1]},{"out":["d",2]}]}},{"name":"b","vars":[["k","int"],["x","int"]],"process":{"for":["k",0,2,{"alt":[[true,"c","x","skip"],[true,"d","x","skip"]]}]}}],"wires":[["a",0,"b",0]],"vlinks":[{"name":"v","a":["a",0,1,[1]],"b":["b",0,1,[1]]},{"name":"w","a":["a",0,2,[2]],"b":["b",0,2,[2]]}],"channels":[{"name":"c","kind":"int","vlink":"v","way":"ab"},{"name":"d","kind":"int","vlink":"w","way":"ab"}]}"#;

/// Two nodes at two switches with four wires between these; a outputs three numbers, which b inputs.
pub(crate) const SQUARES: &str =
    r#"{"version":1,"nodes":[{"name":"a","vars":[["i","int"]],"process":{"seq":[{"out":["c",0]},{"out":["c",1]},{"out":["c",4]}]}},{"name":"b","vars":[["k","int"],["x","int"]],"process":{"seq":[{"in":["c","x"]},{"in":["c","x"]},{"in":["c","x"]}]}}],"switches":[{"name":"s","table":[[0,10,0,0],[10,20,4,7]],"delete":[0]},{"name":"t","table":[[0,10,4,7],[10,20,0,0]],"delete":[0]}],"wires":[["a",0,"s",0],["b",0,"t",0],["s",4,"t",4],["s",5,"t",5],["s",6,"t",6],["s",7,"t",7]],"vlinks":[{"name":"v","a":["a",0,1,[10,1]],"b":["b",0,1,[0,1]]}],"channels":[{"name":"c","kind":"int","vlink":"v","way":"ab"}]}"#;

/// The network of a text, where it is accepted.
pub(crate) fn accepted(alloc: Global, text: &str) -> Option<Accepted> {
    let plan = read_network(alloc, text.as_bytes()).ok()?;
    check(alloc, plan).ok()
}

/// The network of a text that is accepted.
pub(crate) fn accept(alloc: Global, text: &str) -> Result<Accepted, Fail> {
    let accepted = accepted(alloc, text).ok_or("an accepted network")?;
    Ok(accepted)
}

/// The network after these events.
pub(crate) fn replayed(
    alloc: Global,
    accepted: &Accepted,
    events: &[Event],
) -> Result<Network, Fail> {
    let network = replay(alloc, accepted, events)
        .ok()
        .ok_or("events that replay")?;
    Ok(network)
}
