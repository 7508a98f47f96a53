//! The words without parts, and SEQ, as they run.
use crate::play::{Row, Step, first_wrong_row};
use std::test::Fail;
use vc_occam::Move;

const ROWS: &[Row] = &[
    Row {
        shows: "SKIP ends",
        process: r#""skip""#,
        steps: &[Step::Quietly(&[0]), Step::Ends],
    },
    Row {
        shows: "STOP never goes on",
        process: r#""stop""#,
        steps: &[Step::Lists(&[])],
    },
    Row {
        shows: "an output is finished behind its offer",
        process: r#"{"out":["c3",{"text":"hello"}]}"#,
        steps: &[
            Step::Lists(&[Move::Offer { site: 0, chan: 3 }]),
            Step::Sends(0, 3, b"hello"),
            Step::Makes(Move::Offer { site: 0, chan: 3 }),
            Step::Lists(&[]),
            Step::Finishes(3),
            Step::Ends,
        ],
    },
    Row {
        shows: "a number travels in eight bytes, the low one first",
        process: r#"{"out":["c0",["*",-3,85]]}"#,
        steps: &[Step::Sends(0, 0, &[1, 255, 255, 255, 255, 255, 255, 255])],
    },
    Row {
        shows: "an output stops at a fault",
        process: r#"{"out":["c0",["/",1,0]]}"#,
        steps: &[Step::Quietly(&[0]), Step::Lists(&[])],
    },
    Row {
        shows: "an assignment stops at a fault",
        process: r#"{"set":["x",["/",1,0]]}"#,
        steps: &[Step::Quietly(&[0]), Step::Lists(&[])],
    },
    Row {
        shows: "an assignment ends",
        process: r#"{"seq":[{"set":["x",3]},{"out":["c0","x"]}]}"#,
        steps: &[Step::Quietly(&[1]), Step::SendsNumber(2, 0, 3)],
    },
    Row {
        shows: "an input waits for its message",
        process: r#"{"seq":[{"in":["c1","x"]},{"out":["c0","x"]}]}"#,
        steps: &[
            Step::Lists(&[Move::Want { site: 1, chan: 1 }]),
            Step::Makes(Move::Want { site: 1, chan: 1 }),
            Step::Lists(&[]),
            Step::Gets(1, &[254, 255, 255, 255, 255, 255, 255, 255]),
            Step::SendsNumber(2, 0, -2),
        ],
    },
    Row {
        shows: "a stopped channel is told before what follows",
        process: r#"{"seq":[{"stopch":"c4"},{"in":["c4","x"]}]}"#,
        steps: &[
            Step::Lists(&[Move::Stopch { site: 1, chan: 4 }]),
            Step::Makes(Move::Stopch { site: 1, chan: 4 }),
            Step::Lists(&[Move::Want { site: 2, chan: 4 }]),
        ],
    },
    Row {
        shows: "an empty SEQ is SKIP",
        process: r#"{"seq":[]}"#,
        steps: &[Step::Quietly(&[0]), Step::Ends],
    },
    Row {
        shows: "an empty PAR is SKIP",
        process: r#"{"par":[]}"#,
        steps: &[Step::Quietly(&[0]), Step::Ends],
    },
];

#[test]
fn words_run(rt: HostRuntime) -> Result<(), Fail> {
    assert_eq!(rt; first_wrong_row(rt.alloc(), ROWS)?, None);
    Ok(())
}
