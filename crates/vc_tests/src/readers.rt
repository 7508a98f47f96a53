//! Readers that fail, that have no end, and that give the most bytes that are read.
use crate::networks::HELLO;
use crate::streams::{Failing, Kept, Padded, Spaces};
use std::alloc::Global;
use std::io::Read;
use vc_reader::ReadRefused;
use vc_text::{RunFault, run_check, run_step};

/// The answer of a check or of a run, and how many bytes it wrote.
#[derive(Clone, Copy, Debug, PartialEq, Eq)]
enum Answer {
    Done(usize),
    Read(usize),
    NoJson(usize),
    Other,
}

fn answer_of(ended: Result<(), RunFault>, kept: &Kept) -> Answer {
    match ended {
        Ok(()) => Answer::Done(kept.len),
        Err(RunFault::Read) => Answer::Read(kept.len),
        Err(RunFault::Text(ReadRefused::Json)) => Answer::NoJson(kept.len),
        Err(_) => Answer::Other,
    }
}

/// What a check of the network of a reader answers.
fn check<R: Read>(alloc: Global, reader: &mut R) -> Answer {
    let mut kept = Kept::new();
    let ended = run_check(alloc, reader, &mut kept);
    answer_of(ended, &kept)
}

/// What a run of the network of a reader answers.
fn step<R: Read>(alloc: Global, reader: &mut R) -> Answer {
    let mut kept = Kept::new();
    match run_step(alloc, reader, &mut kept, 1_000_000) {
        Ok(_) => answer_of(Ok(()), &kept),
        Err(fault) => answer_of(Err(fault), &kept),
    }
}

/// What a check and a run answer of the hello network, where the reader gives one byte a read, and fails at the read of that number.
fn answers(alloc: Global, reads_left: usize) -> (Answer, Answer) {
    let rest = HELLO.as_bytes();
    (
        check(alloc, &mut Failing { rest, reads_left }),
        step(alloc, &mut Failing { rest, reads_left }),
    )
}

/// How long the line of the hello network is that is accepted, and how long its traffic.
const LENGTHS: (usize, usize) = (48, 63);

#[test]
fn a_failed_read_writes_nothing(rt: HostRuntime) {
    for reads_left in 0..=HELLO.len() {
        assert_eq!(rt;
            answers(rt.alloc(), reads_left),
            (Answer::Read(0), Answer::Read(0))
        );
    }
    let (checked, ran) = LENGTHS;
    assert_eq!(rt;
        answers(rt.alloc(), HELLO.len() + 1),
        (Answer::Done(checked), Answer::Done(ran))
    );
}

/// What a check answers of a reader of spaces that ends at the read of that number, and how often it was read.
fn read_spaces(alloc: Global, last: u32) -> (Answer, u32) {
    let mut reader = Spaces { reads: 0, last };
    let answer = check(alloc, &mut reader);
    (answer, reader.reads)
}

#[test]
fn a_reader_has_so_many_reads_to_end(rt: HostRuntime) {
    assert_eq!(rt;
        read_spaces(rt.alloc(), u32::MAX),
        (Answer::Read(0), 1_048_576)
    );
    assert_eq!(rt;
        read_spaces(rt.alloc(), 1_048_576),
        (Answer::NoJson(0), 1_048_576)
    );
}

/// What a check answers of the hello network with spaces after it, of so many bytes in all.
fn check_padded(alloc: Global, len: usize) -> Answer {
    let text = HELLO.as_bytes();
    let spaces = len.saturating_sub(text.len());
    check(alloc, &mut Padded { text, spaces })
}

#[test]
fn a_text_has_up_to_16777216_bytes(rt: HostRuntime) {
    assert_eq!(rt;
        check_padded(rt.alloc(), 16_777_216),
        Answer::Done(LENGTHS.0)
    );
    assert_eq!(rt; check_padded(rt.alloc(), 16_777_217), Answer::Read(0));
}
