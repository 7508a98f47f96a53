//! What expressions and conditions are worth, as an output or a WHILE shows it.
use crate::play::{Step, takes_all};
use std::alloc::Global;
use std::test::Fail;
use vc_occam::Move;

/// The first of these processes that does not take these steps.
fn first_other<'a>(
    alloc: Global,
    processes: &[&'a str],
    steps: &[Step],
) -> Result<Option<&'a str>, Fail> {
    for process in processes {
        if !takes_all(alloc, process, steps)? {
            return Ok(Some(process));
        }
    }
    Ok(None)
}

/// Outputs, and the numbers that they send.
const RESULTS: &[(&str, i64)] = &[
    (r#"{"out":["c0",["+",2,-5]]}"#, -3),
    (r#"{"out":["c0",["-",2,5]]}"#, -3),
    (r#"{"out":["c0",["*",-3,5]]}"#, -15),
    (r#"{"out":["c0",["/",-7,2]]}"#, -3),
    (r#"{"out":["c0",["/",7,-2]]}"#, -3),
    (r#"{"out":["c0",["\\",-7,2]]}"#, -1),
    (r#"{"out":["c0",["\\",7,-2]]}"#, 1),
];

#[test]
fn quotients_are_cut_toward_zero_and_remainders_have_the_left_sign(
    rt: HostRuntime,
) -> Result<(), Fail> {
    for (process, number) in RESULTS {
        let steps = [Step::SendsNumber(0, 0, *number)];
        assert!(rt; takes_all(rt.alloc(), process, &steps)?, "{process}");
    }
    Ok(())
}

/// Outputs of what is past the greatest number, below the least one, or divided by zero.
const FAULTS: &[&str] = &[
    r#"{"out":["c0",["+",9223372036854775807,1]]}"#,
    r#"{"out":["c0",["-",-9223372036854775808,1]]}"#,
    r#"{"out":["c0",["*",4294967296,2147483648]]}"#,
    r#"{"out":["c0",["/",1,0]]}"#,
    r#"{"out":["c0",["/",-9223372036854775808,-1]]}"#,
    r#"{"out":["c0",["\\",1,0]]}"#,
    r#"{"out":["c0",["\\",-9223372036854775808,-1]]}"#,
];

#[test]
fn what_has_no_result_is_a_fault(rt: HostRuntime) -> Result<(), Fail> {
    let stops = &[Step::Quietly(&[0]), Step::Lists(&[])];
    assert_eq!(rt; first_other(rt.alloc(), FAULTS, stops)?, None);
    Ok(())
}

/// WHILEs whose condition is true: each comparison, and AND and OR whose left side decides or leaves it to the right one.
const TURN: &[&str] = &[
    r#"{"while":[["=",0,0],"skip"]}"#,
    r#"{"while":[["<>",1,0],"skip"]}"#,
    r#"{"while":[["<",-1,0],"skip"]}"#,
    r#"{"while":[[">",1,0],"skip"]}"#,
    r#"{"while":[["<=",0,0],"skip"]}"#,
    r#"{"while":[[">=",0,0],"skip"]}"#,
    r#"{"while":[["or",true,["=",["/",1,0],0]],"skip"]}"#,
    r#"{"while":[["and",true,["not",false]],"skip"]}"#,
];

/// WHILEs whose condition is false.
const END: &[&str] = &[
    r#"{"while":[["=",1,0],"skip"]}"#,
    r#"{"while":[["<>",0,0],"skip"]}"#,
    r#"{"while":[["<",0,0],"skip"]}"#,
    r#"{"while":[[">",0,0],"skip"]}"#,
    r#"{"while":[["<=",1,0],"skip"]}"#,
    r#"{"while":[[">=",-1,0],"skip"]}"#,
    r#"{"while":[["and",false,["=",["/",1,0],0]],"skip"]}"#,
];

#[test]
fn comparisons_are_those_of_whole_numbers_and_the_left_side_decides_first(
    rt: HostRuntime,
) -> Result<(), Fail> {
    let turns = &[Step::Quietly(&[0]), Step::Lists(&[Move::Quiet { site: 1 }])];
    assert_eq!(rt; first_other(rt.alloc(), TURN, turns)?, None);
    let ends = &[Step::Quietly(&[0]), Step::Ends];
    assert_eq!(rt; first_other(rt.alloc(), END, ends)?, None);
    Ok(())
}

#[test]
fn bytes_have_a_size_and_are_none_at_first(rt: HostRuntime) -> Result<(), Fail> {
    let process =
        r#"{"seq":[{"set":["s",{"fill":[7,3]}]},{"out":["c0",["-",["size","s"],["size","t"]]]}]}"#;
    let steps = [Step::Quietly(&[1]), Step::SendsNumber(2, 0, 3)];
    assert!(rt; takes_all(rt.alloc(), process, &steps)?);
    Ok(())
}
