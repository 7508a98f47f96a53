//! Small networks that are accepted, or refused for one cause.
ghost use Rattle.std.specs.Prelude.{IfOk};
ghost use Rattle.vc_plan.specs.Versions.{IsVersionOne};

use crate::networks::accept;
use sqlite_items::Items;
use std::alloc::Global;
use std::test::Fail;
use vc_plan::{CheckRefused, Plan, as_version_two, check};
use vc_reader::read_network;

/// Two nodes and one wire, with these virtual links.
macro_rules! direct {
    ($vlinks:literal) => {
        concat!(
            r#"{"version":1,"nodes":[{"name":"a","process":"skip"},{"name":"b","process":"skip"}],"wires":[["a",0,"b",0]],"vlinks":["#,
            $vlinks,
            "]}"
        )
    };
}

/// Two nodes, each at link 0 of its switch, and a group of two wires between the switches, with this route from the first node.
macro_rules! switched {
    ($route:literal) => {
        concat!(
            r#"{"version":1,"nodes":[{"name":"a","process":"skip"},{"name":"b","process":"skip"}],"switches":[{"name":"s","table":[[0,10,0,0],[10,20,4,5]],"delete":[0]},{"name":"t","table":[[0,10,4,5],[10,20,0,0]],"delete":[0]}],"wires":[["a",0,"s",0],["b",0,"t",0],["s",4,"t",4],["s",5,"t",5]],"vlinks":[{"name":"v","a":["a",0,1,"#,
            $route,
            r#"],"b":["b",0,1,[0,1]]}]}"#
        )
    };
}

/// The hello network, where the second node's process is this one in 31 SEQ around each other.
macro_rules! deep {
    ($inner:literal) => {
        concat!(
            r#"{"version":1,"nodes":[{"name":"a","process":{"out":["c",{"text":"hello"}]}},{"name":"b","vars":[["m","bytes"]],"process":{"seq":[{"seq":[{"seq":[{"seq":[{"seq":[{"seq":[{"seq":[{"seq":[{"seq":[{"seq":[{"seq":[{"seq":[{"seq":[{"seq":[{"seq":[{"seq":[{"seq":[{"seq":[{"seq":[{"seq":[{"seq":[{"seq":[{"seq":[{"seq":[{"seq":[{"seq":[{"seq":[{"seq":[{"seq":[{"seq":[{"seq":["#,
            $inner,
            r#"]}]}]}]}]}]}]}]}]}]}]}]}]}]}]}]}]}]}]}]}]}]}]}]}]}]}]}]}]}]}]}}],"wires":[["a",0,"b",0]],"vlinks":[{"name":"v","a":["a",0,1,[1]],"b":["b",0,1,[1]]}],"channels":[{"name":"c","kind":"bytes","vlink":"v","way":"ab"}]}"#
        )
    };
}

const DIRECT: &str = direct!(r#"{"name":"v","a":["a",0,1,[1]],"b":["b",0,1,[1]]}"#);

/// Networks that are accepted, and how many nodes, switches and virtual links each has.
const ACCEPTED: &[(&str, [usize; 3])] = &[
    (DIRECT, [2, 0, 1]),
    (switched!("[10,1]"), [2, 2, 1]),
    (deep!(r#""skip""#), [2, 0, 1]),
];

/// How many nodes, switches and virtual links a network has that is accepted.
fn counts(alloc: Global, text: &str) -> Result<[usize; 3], Fail> {
    let accepted = accept(alloc, text)?;
    let plan = accepted.plan();
    Ok([plan.nodes.len(), plan.switches.len(), plan.vlinks.len()])
}

#[test]
fn networks_are_accepted(rt: HostRuntime) -> Result<(), Fail> {
    for (text, wanted) in ACCEPTED {
        assert_eq!(rt; counts(rt.alloc(), text)?, *wanted, "{text}");
    }
    Ok(())
}

/// Why a network is refused.
fn refusal(alloc: Global, text: &str) -> Result<CheckRefused, Fail> {
    let plan = read_network(alloc, text.as_bytes())?;
    match check(alloc, plan) {
        Ok(_) => Err(Fail::from("a refusal")),
        Err(refused) => Ok(refused.why),
    }
}

/// Why a network is refused, with all that the refusal says.
fn told(alloc: Global, text: &str) -> Result<String, Fail> {
    let why = refusal(alloc, text)?;
    Ok(format!(in alloc; "{why:?}")?)
}

/// What a row shows, a network, and all that its refusal says.
const REFUSED: &[(&str, &str, &str)] = &[
    (
        "a header too few leaves none at the node",
        switched!("[10]"),
        "StackEmpty(PathFault { vlink: 0, from_a: true, start: Port { spot: Node(0), link: 0 }, hops: Items { items: [Hop { switch: 0, value: None, link: 4 }, Hop { switch: 1, value: None, link: 0 }] }, last: Node(1), value: None })",
    ),
    (
        "a header outside the table has no interval",
        switched!("[20,1]"),
        "NoInterval(PathFault { vlink: 0, from_a: true, start: Port { spot: Node(0), link: 0 }, hops: Items { items: [] }, last: Switch(0), value: None })",
    ),
    (
        "a block is of one end",
        direct!(
            r#"{"name":"v","a":["a",0,1,[1]],"b":["b",0,1,[1]]},{"name":"w","a":["a",0,1,[1]],"b":["b",0,1,[1]]}"#
        ),
        "BlockTwice { node: 0, block: 1 }",
    ),
    (
        "a route has headers",
        direct!(r#"{"name":"v","a":["a",0,1,[]],"b":["b",0,1,[1]]}"#),
        "Limit(Route)",
    ),
    (
        "a process has at most depth 32",
        deep!(r#"{"seq":["skip"]}"#),
        "Limit(Depth)",
    ),
];

#[test]
fn networks_are_refused_for_their_cause(rt: HostRuntime) -> Result<(), Fail> {
    for (shows, text, why) in REFUSED {
        assert_eq!(rt; told(rt.alloc(), text)?.as_str(), *why, "{shows}");
    }
    Ok(())
}

/// The plan of one wire, as one of version 1.
fn direct_in_version_one(alloc: Global) -> Result<Plan, Fail>
    ensures { IfOk result IsVersionOne }
{
    let mut plan = read_network(alloc, DIRECT.as_bytes())?;
    plan.version = 1;
    plan.switches = Items::new(alloc);
    Ok(plan)
}

/// The version of a plan that is accepted.
fn accepted_version(alloc: Global, plan: Plan) -> Result<u8, Fail> {
    let accepted = check(alloc, plan).ok().ok_or("a lawful network")?;
    Ok(accepted.plan().version)
}

#[test]
fn a_plan_is_accepted_in_both_versions(rt: HostRuntime) -> Result<(), Fail> {
    let one = direct_in_version_one(rt.alloc())?;
    assert_eq!(rt; accepted_version(rt.alloc(), one)?, 1);
    let two = as_version_two(direct_in_version_one(rt.alloc())?);
    assert_eq!(rt; accepted_version(rt.alloc(), two)?, 2);
    Ok(())
}
