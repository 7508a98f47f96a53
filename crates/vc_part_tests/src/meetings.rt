//! What meets on a channel inside a node.
use crate::play::{Row, Step, first_wrong_row};
use std::test::Fail;
use vc_occam::Move;

/// The output at site 1 meets the input at site 3 on channel 8.
const WITH_INPUT: Move = Move::Inner {
    sender: 1,
    receiver: 3,
    guard: None,
    chan: 8,
};

/// The output at site 1 meets the second guard of the ALT at site 2 on channel 8.
const WITH_GUARD: Move = Move::Inner {
    sender: 1,
    receiver: 2,
    guard: Some(1),
    chan: 8,
};

const ROWS: &[Row] = &[
    Row {
        shows: "an output meets an input in one step",
        process: r#"{"par":[{"out":["c8",7]},{"seq":[{"in":["c8","x"]},{"out":["c0","x"]}]}]}"#,
        steps: &[
            Step::Lists(&[WITH_INPUT]),
            Step::Makes(WITH_INPUT),
            Step::Lists(&[Move::Offer { site: 4, chan: 0 }]),
            Step::SendsNumber(4, 0, 7),
        ],
    },
    Row {
        shows: "an output meets a guard whose condition is true",
        process: r#"{"par":[{"out":["c8",7]},{"alt":[[false,"c8","x","skip"],[true,"c8","x","skip"]]}]}"#,
        steps: &[
            Step::Lists(&[WITH_GUARD]),
            Step::Makes(WITH_GUARD),
            Step::Quietly(&[4]),
            Step::Ends,
        ],
    },
    Row {
        shows: "an output inside its node waits for its input",
        process: r#"{"out":["c8",5]}"#,
        steps: &[Step::Lists(&[])],
    },
    Row {
        shows: "an output inside its node does not meet a stop of its channel",
        process: r#"{"par":[{"out":["c8",5]},{"stopch":"c8"}]}"#,
        steps: &[
            Step::Lists(&[Move::Stopch { site: 2, chan: 8 }]),
            Step::Makes(Move::Stopch { site: 2, chan: 8 }),
            Step::Lists(&[]),
        ],
    },
    Row {
        shows: "on a channel outside both are moves",
        process: r#"{"par":[{"out":["c5",7]},{"in":["c5","x"]}]}"#,
        steps: &[Step::Lists(&[
            Move::Offer { site: 1, chan: 5 },
            Move::Want { site: 2, chan: 5 },
        ])],
    },
];

#[test]
fn meetings_run(rt: HostRuntime) -> Result<(), Fail> {
    assert_eq!(rt; first_wrong_row(rt.alloc(), ROWS)?, None);
    Ok(())
}
