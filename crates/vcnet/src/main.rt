//! The program `vcnet`: it checks and runs a network that is written as JSON on standard input.
#![tactic(auto)]

mod progress;

use crate::progress::{Line, Screen};
use crossbeam_utils::sync::Parker;
use std::alloc::{AllocError, Global};
use std::io::{Eprint, IsTerminal, Read, Write};
use std::process::ExitCode;
use std::sync::Wait;
use std::thread::Threads;
use std::time::Clock;
use std::{io, thread};
use vc_words::{Meter, NamedFiles, Progress, progress_for, run_words, tell_memory, tell_no_text};

/// The words of the command line.
fn words_of(rt: &HostRuntime, alloc: Global) -> io::Result<Vec<String>> {
    Ok(std::env::args(rt)?.collect(alloc)?)
}

/// Which of the two streams of output are terminals.
#[derive(Clone, Copy, Drop)]
struct Terminals {
    out: bool,
    err: bool,
}

/// Does what the words ask for, and shows meanwhile how far that is. The answer is the program's status.
fn status_shown<T: Clock + Eprint + NamedFiles + Threads + Wait + Sync, R: Read, W: Write>(
    rt: &T,
    words: &[&str],
    reader: &mut R,
    writer: &mut W,
    terminals: Terminals,
    progress: Progress,
    alloc: Global,
) -> Result<u8, AllocError> {
    let meter = Meter::new();
    let line = Line::new(rt);
    let parker = Parker::new(alloc)?;
    let unparker = parker.unparker().clone()?;
    let (meter, line) = (&meter, &line);
    let shared = if terminals.out { Some(line) } else { None };
    let mut screen = Screen::new(writer, shared);
    let reader = &mut *reader;
    Ok(thread::scope(thread::scope_env(), rt, move |scope| {
        let shown = scope.spawn(move || line.follow(&parker, progress, meter));
        let status = run_words(rt, alloc, words, reader, &mut screen, meter);
        line.end();
        unparker.unpark();
        if let Ok(shown) = shown {
            shown.join(rt);
        }
        status
    }))
}

/// Does what these words ask for; the answer is the program's status.
fn status_of<T: Clock + Eprint + NamedFiles + Threads + Wait + Sync, R: Read, W: Write>(
    rt: &T,
    alloc: Global,
    texts: &[String],
    reader: &mut R,
    writer: &mut W,
    terminals: Terminals,
) -> Result<u8, AllocError> {
    let mut words = Vec::new(alloc);
    for text in texts {
        words.push(text.as_str())?;
    }
    let words = words.as_slice();
    match progress_for(alloc, words, terminals.err) {
        Ok(Some(progress)) => {
            status_shown(rt, words, reader, writer, terminals, progress, alloc)
        }
        _ => Ok(run_words(rt, alloc, words, reader, writer, &Meter::new())),
    }
}

/// What the words that could not be read give: want of memory, or they are no text.
fn status_without_words(rt: &HostRuntime, alloc: Global, error: &io::Error) -> u8 {
    if error.kind() == io::ErrorKind::OutOfMemory {
        tell_memory(alloc, &mut rt.stdout())
    } else {
        tell_no_text(&mut rt.stdout())
    }
}

fn main(rt: HostRuntime) -> ExitCode {
    let alloc = rt.alloc();
    let terminals = Terminals {
        out: rt.stdout().is_terminal(),
        err: rt.stderr().is_terminal(),
    };
    ExitCode::from(match words_of(&rt, alloc) {
        Ok(texts) => match status_of(
            &rt,
            alloc,
            texts.as_slice(),
            &mut rt.stdin(),
            &mut rt.stdout(),
            terminals,
        ) {
            Ok(status) => status,
            Err(AllocError) => tell_memory(alloc, &mut rt.stdout()),
        },
        Err(error) => status_without_words(&rt, alloc, &error),
    })
}
