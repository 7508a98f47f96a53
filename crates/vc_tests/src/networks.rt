//! Networks that several tests run.
use std::alloc::Global;
use std::test::Fail;
use vc_core::{Event, Network, replay};
use vc_plan::{Accepted, check};
use vc_reader::read_network;

/// Two nodes on one wire; the first outputs a text that the second inputs.
pub(crate) const HELLO: &str =
    r#"{"version":1,"nodes":[{"name":"a","process":{"out":["c",{"text":"hello"}]}},{"name":"b","vars":[["m","bytes"]],"process":{"in":["c","m"]}}],"wires":[["a",0,"b",0]],"vlinks":[{"name":"v","a":["a",0,1,[1]],"b":["b",0,1,[1]]}],"channels":[{"name":"c","kind":"bytes","vlink":"v","way":"ab"}]}"#;

/// The traffic of the hello network.
pub(crate) const HELLO_TRAFFIC: &str =
    "channel c offered 1 taken 1 finished 1\n  0 68656c6c6f\nend done\n";

/// A node that outputs on two virtual links side by side, and one that takes from whichever is ready.
pub(crate) const CHOICE: &str =
    r#"{"version":1,"nodes":[{"name":"a","process":{"par":[{"out":["c",1]},{"out":["d",2]}]}},{"name":"b","vars":[["k","int"],["x","int"]],"process":{"for":["k",0,2,{"alt":[[true,"c","x","skip"],[true,"d","x","skip"]]}]}}],"wires":[["a",0,"b",0]],"vlinks":[{"name":"v","a":["a",0,1,[1]],"b":["b",0,1,[1]]},{"name":"w","a":["a",0,2,[2]],"b":["b",0,2,[2]]}],"channels":[{"name":"c","kind":"int","vlink":"v","way":"ab"},{"name":"d","kind":"int","vlink":"w","way":"ab"}]}"#;

/// Two nodes at two switches with four wires between these; the first outputs the squares of 0, 1 and 2.
pub(crate) const SQUARES: &str =
    r#"{"version":1,"nodes":[{"name":"a","vars":[["i","int"]],"process":{"for":["i",0,3,{"out":["c",["*","i","i"]]}]}},{"name":"b","vars":[["k","int"],["x","int"]],"process":{"for":["k",0,3,{"in":["c","x"]}]}}],"switches":[{"name":"s","table":[[0,10,0,0],[10,20,4,7]],"delete":[0]},{"name":"t","table":[[0,10,4,7],[10,20,0,0]],"delete":[0]}],"wires":[["a",0,"s",0],["b",0,"t",0],["s",4,"t",4],["s",5,"t",5],["s",6,"t",6],["s",7,"t",7]],"vlinks":[{"name":"v","a":["a",0,1,[10,1]],"b":["b",0,1,[0,1]]}],"channels":[{"name":"c","kind":"int","vlink":"v","way":"ab"}]}"#;

/// The traffic of the squares network.
pub(crate) const SQUARES_TRAFFIC: &str =
    "channel c offered 3 taken 3 finished 3\n  0 0\n  1 1\n  2 4\nend done\n";

/// Two nodes at one switch, which puts a random header in front of what the first node sends; it falls away again.
pub(crate) const PORTALS: &str =
    r#"{"version":2,"nodes":[{"name":"a","process":{"out":["c",{"text":"hello"}]}},{"name":"b","vars":[["m","bytes"]],"process":{"in":["c","m"]}}],"wires":[["a",0,"s",0],["b",0,"s",1]],"vlinks":[{"name":"v","a":["a",0,7,[50]],"b":["b",0,50,[7]]}],"channels":[{"name":"c","kind":"bytes","vlink":"v","way":"ab"}],"switches":[{"name":"s","table":[[0,50,0,0],[50,100,1,1],[100,104,"portal"]],"random":[[0,100,104]]}]}"#;

/// A node with an output and an input on a channel inside it.
pub(crate) const MEETING: &str =
    r#"{"version":1,"nodes":[{"name":"a","vars":[["x","int"]],"process":{"par":[{"out":["i",5]},{"in":["i","x"]}]}}],"channels":[{"name":"i","kind":"int","node":"a"}]}"#;

/// Two nodes on two wires: a PAR of three outputs, and one of three inputs.
pub(crate) const THREE_PARTS: &str =
    r#"{"version":1,"nodes":[{"name":"a","vars":[["i","int"],["j","int"]],"process":{"par":[{"seq":[{"set":["i",4]},{"out":["c","i"]}]},{"out":["d",{"fill":[9,70]}]},{"seq":[{"out":["e",-1]},{"for":["j",0,3,{"out":["e",["*","j","j"]]}]}]}]}},{"name":"b","vars":[["x","int"],["m","bytes"],["k","int"],["y","int"]],"process":{"par":[{"in":["d","m"]},{"seq":[{"for":["k",0,4,{"in":["e","y"]}]}]},{"in":["c","x"]}]}}],"wires":[["a",0,"b",2],["a",1,"b",0]],"vlinks":[{"name":"v","a":["a",0,1,[1]],"b":["b",2,1,[1]]},{"name":"w","a":["a",1,2,[2]],"b":["b",2,2,[2]]},{"name":"u","a":["a",0,3,[3]],"b":["b",0,3,[3]]}],"channels":[{"name":"c","kind":"int","vlink":"v","way":"ab"},{"name":"d","kind":"bytes","vlink":"w","way":"ab"},{"name":"e","kind":"int","vlink":"u","way":"ab"}]}"#;

/// Two nodes that each output 65,535 bytes and input as many, at once.
pub(crate) const CROSSING: &str =
    r#"{"version":1,"nodes":[{"name":"a","vars":[["m","bytes"]],"process":{"par":[{"out":["c",{"fill":[7,65535]}]},{"in":["d","m"]}]}},{"name":"b","vars":[["m","bytes"]],"process":{"par":[{"in":["c","m"]},{"out":["d",{"fill":[7,65535]}]}]}}],"wires":[["a",0,"b",0]],"vlinks":[{"name":"v","a":["a",0,1,[1]],"b":["b",0,1,[1]]}],"channels":[{"name":"c","kind":"bytes","vlink":"v","way":"ab"},{"name":"d","kind":"bytes","vlink":"v","way":"ba"}]}"#;

/// The network of a text, where it is accepted.
pub(crate) fn accepted(alloc: Global, text: &str) -> Option<Accepted> {
    let plan = read_network(alloc, text.as_bytes()).ok()?;
    check(alloc, plan).ok()
}

/// The network of a text that is accepted.
pub(crate) fn accept(alloc: Global, text: &str) -> Result<Accepted, Fail> {
    let accepted = accepted(alloc, text).ok_or("an accepted network")?;
    Ok(accepted)
}

/// The network after these events.
pub(crate) fn replayed(
    alloc: Global,
    accepted: &Accepted,
    events: &[Event],
) -> Result<Network, Fail> {
    let network = replay(alloc, accepted, events)
        .ok()
        .ok_or("events that replay")?;
    Ok(network)
}
