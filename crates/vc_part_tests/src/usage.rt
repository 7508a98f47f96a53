//! Which use of channels and variables is lawful.
use crate::read::read;
use std::alloc::Global;
use std::test::Fail;
use vc_occam::{UseFault, check_use};

/// What each row shows, a process, and what the check of its use answers.
const ROWS: &[(&str, &str, Result<(), UseFault>)] = &[
    (
        "the least channel is told",
        r#"{"par":[{"seq":[{"out":["c9",1]},{"out":["c4",1]}]},{"seq":[{"out":["c4",1]},{"out":["c9",1]}]}]}"#,
        Err(UseFault::Chan(4)),
    ),
    (
        "outputs come before inputs",
        r#"{"par":[{"seq":[{"in":["c1","x"]},{"out":["c7",1]}]},{"seq":[{"out":["c7",1]},{"in":["c1","x"]}]}]}"#,
        Err(UseFault::Chan(7)),
    ),
    (
        "inputs come before variables",
        r#"{"par":[{"in":["c1","x"]},{"in":["c1","x"]}]}"#,
        Err(UseFault::Chan(1)),
    ),
    (
        "a stop is an input",
        r#"{"par":[{"alt":[[true,"c2","x","skip"],[true,"c6","x","skip"]]},{"stopch":"c6"}]}"#,
        Err(UseFault::Chan(6)),
    ),
    (
        "a variable that one part changes is used by no other",
        r#"{"par":[{"out":["c0","y"]},{"in":["c1","y"]}]}"#,
        Err(UseFault::Var(1)),
    ),
    (
        "both parts may use a variable that none changes",
        r#"{"par":[{"out":["c0","y"]},{"out":["c1","y"]}]}"#,
        Ok(()),
    ),
    (
        "one part may output where another inputs",
        r#"{"par":[{"out":["c2",1]},{"in":["c2","x"]}]}"#,
        Ok(()),
    ),
    (
        "a body may not change its index",
        r#"{"for":["x",0,2,{"set":["x",5]}]}"#,
        Err(UseFault::Var(0)),
    ),
    (
        "the first offender by site is told",
        r#"{"seq":[{"for":["x",0,3,{"par":[{"in":["c5","x"]},{"in":["c6","y"]}]}]},{"par":[{"in":["c5","x"]},{"in":["c5","y"]}]}]}"#,
        Err(UseFault::Var(0)),
    ),
];

/// What the check of a process's use answers.
fn used(alloc: Global, process: &str) -> Result<Result<(), UseFault>, Fail> {
    let plan = read(alloc, process)?;
    let node = plan.nodes.get(0).ok_or("a node")?;
    Ok(check_use(alloc, &node.process))
}

#[test]
fn the_first_offender_is_told(rt: HostRuntime) -> Result<(), Fail> {
    for (shows, process, answer) in ROWS {
        assert_eq!(rt; used(rt.alloc(), process)?, *answer, "{shows}");
    }
    Ok(())
}
