//! The text of a network's traffic.
ghost use Rattle.std.specs.Prelude.{◌≡◌, ◌++◌, map, OnErr, OnOk};
ghost use Rattle.std.specs.Io.KnownBytes.{Appends};
ghost use Rattle.std.specs.List.{flat_map};
ghost use Rattle.vc_blocks.specs.Messages.{listed};
ghost use Rattle.vc_text.specs.Pieces.{Passes};
ghost use Rattle.vc_text.specs.Streams.{AppendsFront, Writes};
ghost use Rattle.vc_text.specs.Views.{shown};
ghost use Rattle.vc_text.specs.Traffic.{bytes_text, value_text, message_line, message_lines, channel_line, channel_lines, close_text, counts_text, traffic};
ghost use Rattle.vc_waits.specs.Waits.{newline};

use crate::digits::put_digits;
use crate::fault::RunFault;
use crate::pieces::{Piece, WriteFailed, flush, put, put_texts};
use itoa::Buffer;
use std::io::Write;
use vc_blocks::Messages;
use vc_core::Close;
use vc_occam::ValueKind;
use vc_packets::Memory;
use vc_process::number_in;
use vc_waits::push_texts;

/// What a channel is and has done.
#[derive(Clone, Copy, Drop)]
pub struct ChannelView<'a> {
    /// Its name.
    pub name: &'a str,
    /// What its messages are.
    pub kind: ValueKind,
    /// How many messages were offered.
    pub offered: usize,
    /// The messages that were taken, in order.
    pub taken: Messages<'a>,
    /// How many outputs were finished.
    pub finished: u64,
    /// Whether the channel was stopped.
    pub is_stopped: bool,
}

/// Adds to a text how many messages of a channel were offered, taken and finished, and whether it was stopped. The call
/// fails only when out of memory, and the text is then unchanged.
pub fn push_counts(out: &mut Vec<u8>, view: &ChannelView<'_>) -> Result<(), Memory>
    ensures ok { OnOk result
        (out.new.items ≡ out.old.items ++ counts_text (shown view.now)) }
    ensures err { OnErr result (out.new.items ≡ out.old.items) }
{
    let (mut offered, mut taken) = (Buffer::new(), Buffer::new());
    let mut finished = Buffer::new();
    let texts: [&[u8]; 7] = [
        b"offered ",
        offered.format(view.offered).as_bytes(),
        b" taken ",
        taken.format(view.taken.len()).as_bytes(),
        b" finished ",
        finished.format(view.finished).as_bytes(),
        if view.is_stopped { b" stopped" } else { b"" },
    ];
    push_texts(out, &texts)
}

fn put_int<W: Write>(piece: &mut Piece, writer: &mut W, message: &[u8]) -> Result<(), WriteFailed>
    ensures ok { OnOk result
        (Passes (W.contents writer.old) piece.old.items (W.contents writer.new) piece.new.items
        (value_text ValueKind.Int message.now)) }
    ensures err { OnErr result
        (AppendsFront (W.contents writer.old) (W.contents writer.new)
        (piece.old.items ++ value_text ValueKind.Int message.now)) }
{
    let mut buffer = Buffer::new();
    put(piece, writer, buffer.format(number_in(message)).as_bytes())
}

fn put_bytes<W: Write>(piece: &mut Piece, writer: &mut W, message: &[u8]) -> Result<(), WriteFailed>
    ensures ok { OnOk result (Passes (W.contents writer.old) piece.old.items
        (W.contents writer.new) piece.new.items (bytes_text message.now)) }
    ensures err { OnErr result (AppendsFront (W.contents writer.old)
        (W.contents writer.new) (piece.old.items ++ bytes_text message.now)) }
{
    if message.is_empty() {
        return put(piece, writer, b"-");
    }
    put_digits(piece, writer, message)
}

/// Adds a message to what the buffer holds: an int in decimal, and bytes in hexadecimal, or `-` for none. If the writer fails, it has
/// got a prefix of what the buffer held and the message.
pub fn put_value<W: Write>(
    piece: &mut Piece,
    writer: &mut W,
    kind: ValueKind,
    message: &[u8],
) -> Result<(), WriteFailed>
    ensures ok { OnOk result (Passes (W.contents writer.old) piece.old.items
        (W.contents writer.new) piece.new.items (value_text kind message.now)) }
    ensures err { OnErr result (AppendsFront (W.contents writer.old)
        (W.contents writer.new) (piece.old.items ++ value_text kind message.now)) }
{
    match kind {
        ValueKind::Int => put_int(piece, writer, message),
        ValueKind::Bytes => put_bytes(piece, writer, message),
    }
}

/// The n-th message of a channel, which is this one.
fn put_message<W: Write>(
    piece: &mut Piece,
    writer: &mut W,
    kind: ValueKind,
    n: usize,
    message: &[u8],
) -> Result<(), WriteFailed>
    ensures ok { OnOk result
        (Passes (W.contents writer.old) piece.old.items (W.contents writer.new) piece.new.items
        (message_line kind n message.now)) }
    ensures err { OnErr result
        (AppendsFront (W.contents writer.old) (W.contents writer.new)
        (piece.old.items ++ message_line kind n message.now)) }
{
    let mut number = Buffer::new();
    let texts: [&[u8]; 3] = [b"  ", number.format(n).as_bytes(), b" "];
    put_texts(piece, writer, &texts)?;
    put_value(piece, writer, kind, message)?;
    put(piece, writer, b"\n")
}

/// The messages of a channel, a line each.
fn put_messages<W: Write>(
    piece: &mut Piece,
    writer: &mut W,
    kind: ValueKind,
    messages: Messages<'_>,
) -> Result<(), WriteFailed>
    ensures ok { OnOk result
        (Passes (W.contents writer.old) piece.old.items (W.contents writer.new) piece.new.items
        (message_lines kind 0 (listed messages.entry))) }
    ensures err { OnErr result
        (AppendsFront (W.contents writer.old) (W.contents writer.new)
        (piece.old.items ++ message_lines kind 0 (listed messages.entry))) }
{
    for n in 0..messages.len() {
        let Some(message) = messages.get(n) else {
            unreachable!();
        };
        put_message(piece, writer, kind, n, message)?;
    }
    Ok(())
}

/// The line of a channel.
#[tactic(auto, using(std::proofs::Common::append_assoc))]
fn put_head<W: Write>(
    piece: &mut Piece,
    writer: &mut W,
    view: &ChannelView<'_>,
) -> Result<(), WriteFailed>
    ensures ok { OnOk result (Passes (W.contents writer.old) piece.old.items
        (W.contents writer.new) piece.new.items (channel_line (shown view.now))) }
    ensures err { OnErr result (AppendsFront (W.contents writer.old)
        (W.contents writer.new) (piece.old.items ++ channel_line (shown view.now))) }
{
    let (mut offered, mut taken) = (Buffer::new(), Buffer::new());
    let mut finished = Buffer::new();
    let texts: [&[u8]; 10] = [
        b"channel ",
        view.name.as_bytes(),
        b" offered ",
        offered.format(view.offered).as_bytes(),
        b" taken ",
        taken.format(view.taken.len()).as_bytes(),
        b" finished ",
        finished.format(view.finished).as_bytes(),
        if view.is_stopped { b" stopped" } else { b"" },
        b"\n",
    ];
    put_texts(piece, writer, &texts)
}

/// The lines of a channel.
fn put_channel<W: Write>(
    piece: &mut Piece,
    writer: &mut W,
    view: &ChannelView<'_>,
) -> Result<(), WriteFailed>
    ensures ok { OnOk result (Passes (W.contents writer.old) piece.old.items
        (W.contents writer.new) piece.new.items (channel_lines (shown view.now))) }
    ensures err { OnErr result (AppendsFront (W.contents writer.old)
        (W.contents writer.new) (piece.old.items ++ channel_lines (shown view.now))) }
{
    put_head(piece, writer, view)?;
    put_messages(piece, writer, view.kind, view.taken)
}

/// The lines of channels.
fn put_channels<W: Write>(
    piece: &mut Piece,
    writer: &mut W,
    views: &[ChannelView<'_>],
) -> Result<(), WriteFailed>
    ensures ok { OnOk result
        (Passes (W.contents writer.old) piece.old.items (W.contents writer.new) piece.new.items
        (flat_map (λ view. channel_lines (shown view)) views.now)) }
    ensures err { OnErr result
        (AppendsFront (W.contents writer.old) (W.contents writer.new)
        (piece.old.items ++ flat_map (λ view. channel_lines (shown view)) views.now)) }
{
    for view in views {
        put_channel(piece, writer, view)?;
    }
    Ok(())
}

fn close_line(close: Close) -> &'static [u8]
    ensures { result.now ≡ close_text close ++ newline }
{
    match close {
        Close::Done => b"end done\n",
        Close::Quiet => b"end quiet\n",
        Close::Limit | Close::GateClosed | Close::ClockFull => b"end limit\n",
        Close::Failed(_) => b"end memory\n",
    }
}

/// The traffic of these channels.
pub(crate) fn put_traffic<W: Write>(
    piece: &mut Piece,
    writer: &mut W,
    views: &[ChannelView<'_>],
    close: Close,
) -> Result<(), WriteFailed>
    ensures ok { OnOk result
        (Passes (W.contents writer.old) piece.old.items (W.contents writer.new) piece.new.items
        (traffic (map shown views.now) close)) }
    ensures err { OnErr result
        (AppendsFront (W.contents writer.old) (W.contents writer.new)
        (piece.old.items ++ traffic (map shown views.now) close)) }
{
    put_channels(piece, writer, views)?;
    put(piece, writer, close_line(close))
}

// The traffic of these channels, and then nothing is left in the buffer.
fn pass_traffic<W: Write>(
    writer: &mut W,
    views: &[ChannelView<'_>],
    close: Close,
) -> Result<(), WriteFailed>
    ensures ok { OnOk result (Appends (W.contents writer.old) (W.contents writer.new)
        (traffic (map shown views.now) close)) }
    ensures err { OnErr result (AppendsFront (W.contents writer.old) (W.contents writer.new)
        (traffic (map shown views.now) close)) }
{
    let mut piece = Piece::new();
    put_traffic(&mut piece, writer, views, close)?;
    flush(&mut piece, writer)
}

/// Writes the traffic of these channels, through a buffer of 4,096 bytes: it takes no memory. If the writer fails, it has got a prefix of
/// the traffic.
pub fn write_channels<W: Write>(
    views: &[ChannelView<'_>],
    close: Close,
    writer: &mut W,
) -> Result<(), RunFault>
    ensures { Writes (W.contents writer.old) (W.contents writer.new)
        (traffic (map shown views.now) close) result }
{
    match pass_traffic(writer, views, close) {
        Ok(()) => Ok(()),
        Err(WriteFailed) => Err(RunFault::Write),
    }
}
