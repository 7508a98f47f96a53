//! IF and ALT, as they run.
use crate::play::{Row, Step, first_wrong_row};
use std::test::Fail;
use vc_occam::Move;

/// The first guard of an ALT at site 0, on channel 1.
const FIRST: Move = Move::Choose {
    site: 0,
    guard: 0,
    chan: 1,
};

/// The second guard of an ALT at site 0, on channel 3.
const SECOND: Move = Move::Choose {
    site: 0,
    guard: 1,
    chan: 3,
};

const ROWS: &[Row] = &[
    Row {
        shows: "IF passes a branch whose condition is false",
        process: r#"{"if":[[["<","x",0],"stop"],[true,"skip"]]}"#,
        steps: &[Step::Quietly(&[0, 2]), Step::Ends],
    },
    Row {
        shows: "IF takes the first of the branches whose conditions are true",
        process: r#"{"if":[[true,"skip"],[true,"stop"]]}"#,
        steps: &[Step::Quietly(&[0, 1]), Step::Ends],
    },
    Row {
        shows: "IF stops without a true condition",
        process: r#"{"if":[[false,"skip"],[false,"skip"]]}"#,
        steps: &[Step::Quietly(&[0]), Step::Lists(&[])],
    },
    Row {
        shows: "IF stops at a fault",
        process: r#"{"if":[[["=",["/",1,0],0],"skip"],[true,"skip"]]}"#,
        steps: &[Step::Quietly(&[0]), Step::Lists(&[])],
    },
    Row {
        shows: "ALT may take each guard whose condition is true",
        process: r#"{"alt":[[true,"c1","x","skip"],[true,"c3","s","skip"]]}"#,
        steps: &[Step::Lists(&[FIRST, SECOND])],
    },
    Row {
        shows: "ALT may take no guard whose condition is false",
        process: r#"{"alt":[[false,"c1","x","skip"],[true,"c3","s","skip"]]}"#,
        steps: &[Step::Lists(&[SECOND])],
    },
    Row {
        shows: "ALT stops without a true condition",
        process: r#"{"alt":[[false,"c1","x","skip"],[false,"c1","x","skip"]]}"#,
        steps: &[Step::Lists(&[])],
    },
    Row {
        shows: "ALT stops at a fault",
        process: r#"{"alt":[[["=",["/",1,0],0],"c1","x","skip"],[true,"c1","x","skip"]]}"#,
        steps: &[Step::Lists(&[])],
    },
    Row {
        shows: "ALT waits for the message of its guard",
        process: r#"{"alt":[[true,"c1","x","stop"],[true,"c3","s","skip"]]}"#,
        steps: &[
            Step::Makes(SECOND),
            Step::Lists(&[]),
            Step::Gets(3, b"x"),
            Step::Quietly(&[2]),
            Step::Ends,
        ],
    },
];

#[test]
fn choices_run(rt: HostRuntime) -> Result<(), Fail> {
    assert_eq!(rt; first_wrong_row(rt.alloc(), ROWS)?, None);
    Ok(())
}
