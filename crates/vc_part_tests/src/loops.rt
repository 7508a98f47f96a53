//! WHILE and the replicated SEQ, as they run.
use crate::play::{Row, Step, first_wrong_row};
use std::test::Fail;
use vc_occam::Move;

/// The output of a replicated SEQ's body begins.
const OFFER: Move = Move::Offer { site: 1, chan: 0 };

/// A replicated SEQ at site 1 stops at once.
const STOPS: &[Step] = &[Step::Quietly(&[1]), Step::Lists(&[])];

const ROWS: &[Row] = &[
    Row {
        shows: "WHILE goes on as long as its condition is true",
        process: r#"{"while":[["<","x",2],{"set":["x",["+","x",1]]}]}"#,
        steps: &[Step::Quietly(&[0, 1, 0, 1, 0]), Step::Ends],
    },
    Row {
        shows: "WHILE leaves what its turns made",
        process: r#"{"seq":[{"while":[["<","x",3],{"set":["x",["+","x",1]]}]},{"out":["c0","x"]}]}"#,
        steps: &[
            Step::Quietly(&[1, 2, 1, 2, 1, 2, 1]),
            Step::SendsNumber(3, 0, 3),
        ],
    },
    Row {
        shows: "WHILE goes on in a row",
        process: r#"{"seq":[{"while":[["<","x",2],{"if":[[true,{"set":["x",["+","x",1]]}]]}]},{"out":["c0","x"]}]}"#,
        steps: &[
            Step::GoesOn(0, 0, 0),
            Step::GoesOn(2, 2, 2),
            Step::Quietly(&[3]),
            Step::GoesOn(10, 4, 1),
            Step::SendsNumber(4, 0, 2),
            Step::GoesOn(10, 0, 0),
        ],
    },
    Row {
        shows: "WHILE stops at a fault",
        process: r#"{"while":[["=",["/",1,0],0],"skip"]}"#,
        steps: &[Step::Quietly(&[0]), Step::Lists(&[])],
    },
    Row {
        shows: "a replicated SEQ takes as many turns as its count",
        process: r#"{"for":["x",4,2,{"out":["c0","x"]}]}"#,
        steps: &[
            Step::Quietly(&[0]),
            Step::SendsNumber(1, 0, 4),
            Step::Makes(OFFER),
            Step::Lists(&[]),
            Step::Finishes(0),
            Step::SendsNumber(1, 0, 5),
            Step::Makes(OFFER),
            Step::Finishes(0),
            Step::Ends,
        ],
    },
    Row {
        shows: "the index keeps its last value",
        process: r#"{"seq":[{"for":["x",9223372036854775806,2,"skip"]},{"out":["c0","x"]}]}"#,
        steps: &[Step::Quietly(&[1, 2, 2]), Step::SendsNumber(3, 0, i64::MAX)],
    },
    Row {
        shows: "without a turn the index is unchanged",
        process: r#"{"seq":[{"for":["x",7,0,"skip"]},{"out":["c0","x"]}]}"#,
        steps: &[Step::Quietly(&[1]), Step::SendsNumber(3, 0, 0)],
    },
    Row {
        shows: "a replicated SEQ stops at a fault of its base",
        process: r#"{"seq":[{"for":["x",["/",1,0],1,"skip"]},{"out":["c0","x"]}]}"#,
        steps: STOPS,
    },
    Row {
        shows: "a replicated SEQ stops at a fault of its count",
        process: r#"{"seq":[{"for":["x",0,["/",1,0],"skip"]},{"out":["c0","x"]}]}"#,
        steps: STOPS,
    },
    Row {
        shows: "a replicated SEQ of less than no turns stops",
        process: r#"{"seq":[{"for":["x",0,-1,"skip"]},{"out":["c0","x"]}]}"#,
        steps: STOPS,
    },
    Row {
        shows: "a replicated SEQ whose last index is no number stops",
        process: r#"{"seq":[{"for":["x",9223372036854775807,2,"skip"]},{"out":["c0","x"]}]}"#,
        steps: STOPS,
    },
];

#[test]
fn loops_run(rt: HostRuntime) -> Result<(), Fail> {
    assert_eq!(rt; first_wrong_row(rt.alloc(), ROWS)?, None);
    Ok(())
}
