//! How fast packets are spelled in tokens and read again: `token_rate N` spells N packets of 32 bytes of data and feeds their tokens
//! to a decoder, and prints how many tokens there were. bench/tokens.py measures it.
#![tactic(auto)]

use std::alloc::Global;
use std::io::Write;
use std::process::ExitCode;
use vc_packets::{Packet, piece};
use vc_tokens::{Decoder, encode};

/// The most bytes of a packet's body with one header.
const BODY_LIMIT: usize = 40;

/// The tokens of as many packets, each spelled and read; nothing where memory is short or a packet doesn't come back.
fn tokens_of(alloc: Global, packet: &Packet, packets: u32) -> Option<u64> {
    let mut decoder = Decoder::new(alloc, BODY_LIMIT).ok()?;
    let mut tokens = 0u64;
    for _ in 0..packets {
        let spelled = encode(alloc, packet).ok()?;
        let read = decoder.feed(spelled.as_slice()).ok()?;
        if read.len() != 1 {
            return None;
        }
        tokens = tokens.saturating_add(spelled.len() as u64);
    }
    Some(tokens)
}

fn main(rt: HostRuntime) -> std::io::Result<ExitCode> {
    let alloc = rt.alloc();
    let words: Vec<String> = std::env::args(&rt)?.collect(alloc)?;
    let packets = words.get(1).and_then(|word| word.parse::<u32>().ok());
    let Some(packets) = packets else {
        writeln!(
            rt.stderr(),
            "usage: token_rate N, N a whole number below 4294967296"
        )?;
        return Ok(ExitCode::FAILURE);
    };
    let Ok(packet) = piece(alloc, &[1], &[7; 32], 0) else {
        return Ok(ExitCode::FAILURE);
    };
    match tokens_of(alloc, &packet, packets) {
        Some(tokens) => {
            writeln!(rt.stdout(), "{tokens} tokens")?;
            Ok(ExitCode::SUCCESS)
        }
        None => Ok(ExitCode::FAILURE),
    }
}
