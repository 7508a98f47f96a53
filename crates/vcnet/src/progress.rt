//! The line that shows how far a run is.
use crossbeam_utils::sync::Parker;
use std::alloc::Global;
use std::fmt::{Display, Formatter};
use std::io::{Eprint, Write};
use std::sync::{Mutex, Wait};
use std::time::{Clock, Duration, Instant};
use std::{fmt, io};
use vc_words::{Meter, Progress, Unit};

/// The milliseconds between two lines.
const PAUSE: u64 = 100;

/// What clears the line.
const CLEAR: &str = "\r\x1b[K";

/// How far a run is, and since when it has run.
#[derive(Drop)]
struct Reading {
    progress: Progress,
    done: u64,
    since: Duration,
}

impl Reading {
    /// How many the run makes a second.
    fn rate(&self) -> u128 {
        u128::from(self.done).saturating_mul(1000) / self.since.as_millis().max(1)
    }
}

impl Display for Reading {
    fn fmt<W: fmt::Write>(&self, f: &mut Formatter<W>) -> fmt::Result {
        let unit = match self.progress.unit {
            Unit::Events => "events",
            Unit::Turns => "turns",
        };
        write!(f, "{} {unit}, {}/s", self.done, self.rate())?;
        match self.progress.most {
            Some(most) => {
                let share = u128::from(self.done).saturating_mul(100) / u128::from(most.max(1));
                write!(f, ", {share}% of the limit")
            }
            None => Ok(()),
        }
    }
}

/// What is on the line.
#[derive(Drop)]
enum Shown {
    /// Nothing yet.
    Nothing,
    /// How far the run is.
    Reading,
    /// Nothing any more.
    Over,
}

/// The line of standard error that shows how far a run is.
#[derive(Drop)]
pub(crate) struct Line<'a, R> {
    rt: &'a R,
    shown: Mutex<Shown>,
}

impl<'a, R: Eprint + Wait> Line<'a, R> {
    /// A line with nothing on it.
    pub(crate) fn new(rt: &'a R) -> Line<'a, R> {
        Line {
            rt,
            shown: Mutex::new(Shown::Nothing),
        }
    }

    /// Whether nothing will be on the line any more.
    fn is_over(&self) -> bool {
        let shown = self.shown.lock(self.rt);
        match *shown {
            Shown::Over => true,
            Shown::Nothing | Shown::Reading => false,
        }
    }

    /// Puts a reading on the line, unless the line is over. The answer is whether it is there.
    fn put(&self, reading: &Reading) -> bool {
        let mut shown = self.shown.lock(self.rt);
        match *shown {
            Shown::Over => false,
            Shown::Nothing | Shown::Reading => {
                *shown = Shown::Reading;
                eprint!(self.rt; "{CLEAR}{reading}").is_ok()
            }
        }
    }

    /// Clears the line, and puts nothing on it any more.
    pub(crate) fn end(&self) {
        let mut shown = self.shown.lock(self.rt);
        match *shown {
            Shown::Reading => {
                let _ = eprint!(self.rt; "{CLEAR}");
            }
            Shown::Nothing | Shown::Over => {}
        }
        *shown = Shown::Over;
    }

    /// Shows ten times a second how far a run is, until the line is over. It ends, too, if the line can't be written or the clock can't be
    /// read.
    pub(crate) fn follow(&self, parker: &Parker<Global>, progress: Progress, meter: &Meter)
    where
        R: Clock,
    {
        let Ok(start) = Instant::now(self.rt) else {
            return;
        };
        for _ in self.rt.forever() {
            parker.park_timeout(self.rt, Duration::from_millis(PAUSE));
            if self.is_over() {
                return;
            }
            let Ok(since) = start.elapsed(self.rt) else {
                return;
            };
            let done = meter.done();
            let reading = Reading {
                progress,
                done,
                since,
            };
            if !self.put(&reading) {
                return;
            }
        }
    }
}

/// A writer that may share its terminal with the line: then what is written ends the line first.
#[derive(Drop)]
pub(crate) struct Screen<'out, 'line, 'rt, W, R> {
    out: &'out mut W,
    line: Option<&'line Line<'rt, R>>,
}

impl<'out, 'line, 'rt, W: Write, R: Eprint + Wait> Screen<'out, 'line, 'rt, W, R> {
    /// The writer, and the line if both are on one terminal.
    pub(crate) fn new(out: &'out mut W, line: Option<&'line Line<'rt, R>>) -> Self {
        Screen { out, line }
    }
}

impl<W: Write, R: Eprint + Wait> Write for Screen<'_, '_, '_, W, R> {
    fn write(&mut self, buf: &[u8]) -> io::Result<usize> {
        if let Some(line) = self.line {
            line.end();
        }
        self.out.write(buf)
    }

    fn flush(&mut self) -> io::Result<()> {
        self.out.flush()
    }
}
