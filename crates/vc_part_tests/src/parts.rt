//! PAR, as it runs.
use crate::play::{Row, Step, first_wrong_row};
use std::test::Fail;
use vc_occam::Move;

const ROWS: &[Row] = &[
    Row {
        shows: "a PAR may begin with each of its parts",
        process: r#"{"par":[{"out":["c1",7]},{"out":["c2",7]}]}"#,
        steps: &[
            Step::Lists(&[
                Move::Offer { site: 1, chan: 1 },
                Move::Offer { site: 2, chan: 2 },
            ]),
            Step::Makes(Move::Offer { site: 2, chan: 2 }),
            Step::Makes(Move::Offer { site: 1, chan: 1 }),
            Step::Lists(&[]),
            Step::Finishes(2),
            Step::Finishes(1),
            Step::Ends,
        ],
    },
    Row {
        shows: "a PAR ends when its parts have",
        process: r#"{"par":["skip","skip"]}"#,
        steps: &[
            Step::Lists(&[Move::Quiet { site: 1 }, Move::Quiet { site: 2 }]),
            Step::Makes(Move::Quiet { site: 2 }),
            Step::Quietly(&[1]),
            Step::Ends,
        ],
    },
    Row {
        shows: "a PAR with a part that stops does not end",
        process: r#"{"par":["skip","stop"]}"#,
        steps: &[Step::Quietly(&[1]), Step::Lists(&[])],
    },
    Row {
        shows: "a SEQ goes on after a PAR",
        process: r#"{"seq":[{"par":["skip","skip"]},"skip"]}"#,
        steps: &[
            Step::Makes(Move::Quiet { site: 3 }),
            Step::Quietly(&[2, 4]),
            Step::Ends,
        ],
    },
];

#[test]
fn parts_run(rt: HostRuntime) -> Result<(), Fail> {
    assert_eq!(rt; first_wrong_row(rt.alloc(), ROWS)?, None);
    Ok(())
}
