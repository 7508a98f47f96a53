//! Runs the program's words over each example of the folder that it is run in, and compares what is written, and the status, with the
//! example's files.
//!
//! `index.txt` names the examples, one a line: the status that is wanted, the file of the output that is wanted (`-` where a library
//! words it), the file of the network, and the words of the command line after the program's name.
#![tactic(auto)]

use std::alloc::{Alloc, AllocError, Global};
use std::io::Write;
use std::process::ExitCode;
use std::rt::Files;
use std::sync::Wait;
use std::thread::Threads;
use std::{fs, io};
use vc_words::{Meter, NamedFiles, run_words};

/// The file that names the examples.
const INDEX: &str = "index.txt";

/// What is written in place of an output that is not compared.
const NOT_COMPARED: &str = "-";

/// One example: a network, the words, and what comes of them.
#[derive(Drop)]
struct Example<'a> {
    status: u8,
    output: &'a str,
    network: &'a str,
    words: Vec<&'a str>,
}

/// Reads one line of the index; none where it has not the form.
fn example_of(alloc: Global, line: &str) -> Result<Option<Example<'_>>, AllocError> {
    let mut fields = line.split_whitespace();
    let (Some(status), Some(output), Some(network)) = (fields.next(), fields.next(), fields.next())
    else {
        return Ok(None);
    };
    let Ok(status) = status.parse::<u8>() else {
        return Ok(None);
    };
    let mut words = Vec::new(alloc);
    words.push("vcnet")?;
    for word in fields {
        words.push(word)?;
    }
    Ok(Some(Example {
        status,
        output,
        network,
        words,
    }))
}

/// Whether the example's words write what its file has, and end with its status.
fn holds<R: NamedFiles + Files + Alloc + Threads + Wait + Sync>(
    rt: &R,
    alloc: Global,
    example: &Example<'_>,
) -> io::Result<bool> {
    let network = fs::read(rt, example.network)?;
    let mut reader = network.as_slice();
    let mut written = Vec::new(alloc);
    let words = example.words.as_slice();
    let status = run_words(rt, alloc, words, &mut reader, &mut written, &Meter::new());
    let is_as_wanted = if example.output == NOT_COMPARED {
        !written.is_empty()
    } else {
        written.as_slice() == fs::read(rt, example.output)?.as_slice()
    };
    Ok(status == example.status && is_as_wanted)
}

fn main(rt: HostRuntime) -> io::Result<ExitCode> {
    let alloc = rt.alloc();
    let index = fs::read_to_string(&rt, INDEX)?;
    let mut out = rt.stdout();
    let (mut count, mut failed) = (0_u64, 0_u64);
    for line in index.lines() {
        count = count.saturating_add(1);
        let is_well = match example_of(alloc, line)? {
            Some(example) => holds(&rt, alloc, &example)?,
            None => false,
        };
        if !is_well {
            failed = failed.saturating_add(1);
            writeln!(out, "differs: {line}")?;
        }
    }
    writeln!(
        out,
        "{count} examples, {failed} of which differ from their files"
    )?;
    Ok(if failed == 0 {
        ExitCode::SUCCESS
    } else {
        ExitCode::FAILURE
    })
}
