//! Logs of messages.
use std::alloc::Global;
use std::test::Fail;
use vc_blocks::{MessageLog, Messages};
use vc_packets::Memory;

/// Each message is there, in order.
fn are(messages: Messages<'_>, wanted: &[&[u8]]) -> bool {
    messages.len() == wanted.len() && messages.iter().zip(wanted).all(|(x, y)| x == *y)
}

/// Whether a log gives back these messages, and once the last is taken away all but that.
fn gives_back(alloc: Global, messages: &[&[u8]]) -> Result<bool, Memory> {
    let mut log = MessageLog::new(alloc);
    for message in messages {
        log.push(message)?;
    }
    let is_whole = are(Messages::of(&log), messages);
    log.pop();
    let fewer = messages.len().saturating_sub(1);
    Ok(is_whole && are(Messages::of(&log), &messages[..fewer]))
}

#[test]
fn a_log_gives_back_messages_of_one_length_and_of_others(rt: HostRuntime) -> Result<(), Fail> {
    const LOGS: &[&[&[u8]]] = &[
        &[],
        &[b""],
        &[b"", b"", b"a"],
        &[b"one", b"two", b"six"],
        &[b"one", b"two", b"three", b"six", b""],
    ];
    for messages in LOGS {
        assert!(rt; gives_back(rt.alloc(), messages)?);
    }
    Ok(())
}
