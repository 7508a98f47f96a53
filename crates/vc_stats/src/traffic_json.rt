//! A run's traffic as JSON.
ghost use Rattle.std.specs.Prelude.{◌≡◌, ◌++◌, codes, map, OnErr, OnOk};
ghost use Rattle.std.specs.List.{enumerate_from, flat_map};
ghost use Rattle.vc_blocks.specs.Messages.{listed};
ghost use Rattle.vc_stats.specs.Json.{channel_json, comma, end_word, message_json, stop_json, traffic_json, value_json};
ghost use Rattle.vc_stats.specs.Private.Json.{end_json, head_json};
ghost use Rattle.vc_text.specs.Pieces.{Passes};
ghost use Rattle.vc_text.specs.Streams.{AppendsFront};
ghost use Rattle.vc_text.specs.Views.{shown};

use itoa::Buffer;
use std::io::Write;
use vc_blocks::Messages;
use vc_core::Close;
use vc_occam::ValueKind;
use vc_text::{ChannelView, Piece, WriteFailed, put, put_digits, put_texts, put_value};

/// Bytes as a text of hexadecimal digits.
fn put_hex<W: Write>(piece: &mut Piece, writer: &mut W, message: &[u8]) -> Result<(), WriteFailed>
    ensures ok { OnOk result
        (Passes (W.contents writer.old) piece.old.items (W.contents writer.new) piece.new.items
        (value_json ValueKind.Bytes message.now)) }
    ensures err { OnErr result
        (AppendsFront (W.contents writer.old) (W.contents writer.new)
        (piece.old.items ++ value_json ValueKind.Bytes message.now)) }
{
    put(piece, writer, b"\"")?;
    put_digits(piece, writer, message)?;
    put(piece, writer, b"\"")
}

/// A message.
fn put_json<W: Write>(
    piece: &mut Piece,
    writer: &mut W,
    kind: ValueKind,
    message: &[u8],
) -> Result<(), WriteFailed>
    ensures ok { OnOk result (Passes (W.contents writer.old) piece.old.items
        (W.contents writer.new) piece.new.items (value_json kind message.now)) }
    ensures err { OnErr result (AppendsFront (W.contents writer.old)
        (W.contents writer.new) (piece.old.items ++ value_json kind message.now)) }
{
    match kind {
        ValueKind::Int => put_value(piece, writer, kind, message),
        ValueKind::Bytes => put_hex(piece, writer, message),
    }
}

/// The comma before the n-th item of a list, if it is not the first.
fn comma_before<'a>(n: usize) -> &'a [u8]
    ensures { result.now ≡ comma n }
{
    if n == 0 { b"" } else { b"," }
}

/// The n-th message of a channel.
fn put_message<W: Write>(
    piece: &mut Piece,
    writer: &mut W,
    kind: ValueKind,
    n: usize,
    message: &[u8],
) -> Result<(), WriteFailed>
    ensures ok { OnOk result
        (Passes (W.contents writer.old) piece.old.items (W.contents writer.new) piece.new.items
        (message_json kind (n, message.now))) }
    ensures err { OnErr result
        (AppendsFront (W.contents writer.old) (W.contents writer.new)
        (piece.old.items ++ message_json kind (n, message.now))) }
{
    put(piece, writer, comma_before(n))?;
    put_json(piece, writer, kind, message)
}

/// The messages of a channel.
fn put_messages<W: Write>(
    piece: &mut Piece,
    writer: &mut W,
    kind: ValueKind,
    messages: Messages<'_>,
) -> Result<(), WriteFailed>
    ensures ok { OnOk result
        (Passes (W.contents writer.old) piece.old.items (W.contents writer.new) piece.new.items
        (flat_map (message_json kind) (enumerate_from 0 (listed messages.entry)))) }
    ensures err { OnErr result
        (AppendsFront (W.contents writer.old) (W.contents writer.new)
        (piece.old.items
        ++ flat_map (message_json kind) (enumerate_from 0 (listed messages.entry)))) }
{
    for n in 0..messages.len() {
        let Some(message) = messages.get(n) else {
            unreachable!();
        };
        put_message(piece, writer, kind, n, message)?;
    }
    Ok(())
}

/// The beginning of the n-th channel, up to its messages.
fn put_head<W: Write>(
    piece: &mut Piece,
    writer: &mut W,
    n: usize,
    view: &ChannelView<'_>,
) -> Result<(), WriteFailed>
    ensures ok { OnOk result (Passes (W.contents writer.old) piece.old.items
        (W.contents writer.new) piece.new.items (head_json n (shown view.now))) }
    ensures err { OnErr result (AppendsFront (W.contents writer.old)
        (W.contents writer.new) (piece.old.items ++ head_json n (shown view.now))) }
{
    let mut offered = Buffer::new();
    let texts: [&[u8]; 8] = [
        if n == 0 { b"" } else { b"," },
        b"\n{\"name\":\"",
        view.name.as_bytes(),
        b"\",\"kind\":\"",
        match view.kind {
            ValueKind::Int => b"int",
            ValueKind::Bytes => b"bytes",
        },
        b"\",\"offered\":",
        offered.format(view.offered).as_bytes(),
        b",\"taken\":[",
    ];
    put_texts(piece, writer, &texts)
}

fn stop_word<'a>(is_stopped: bool) -> &'a [u8]
    ensures { result.now ≡ stop_json is_stopped }
{
    if is_stopped {
        b",\"stopped\":true}"
    } else {
        b",\"stopped\":false}"
    }
}

/// The end of a channel, after its messages.
fn put_end<W: Write>(
    piece: &mut Piece,
    writer: &mut W,
    view: &ChannelView<'_>,
) -> Result<(), WriteFailed>
    ensures ok { OnOk result (Passes (W.contents writer.old) piece.old.items
        (W.contents writer.new) piece.new.items (end_json (shown view.now))) }
    ensures err { OnErr result (AppendsFront (W.contents writer.old)
        (W.contents writer.new) (piece.old.items ++ end_json (shown view.now))) }
{
    let mut finished = Buffer::new();
    let texts: [&[u8]; 3] = [
        b"],\"finished\":",
        finished.format(view.finished).as_bytes(),
        stop_word(view.is_stopped),
    ];
    put_texts(piece, writer, &texts)
}

/// The n-th channel.
fn put_channel<W: Write>(
    piece: &mut Piece,
    writer: &mut W,
    n: usize,
    view: &ChannelView<'_>,
) -> Result<(), WriteFailed>
    ensures ok { OnOk result (Passes (W.contents writer.old) piece.old.items
        (W.contents writer.new) piece.new.items (channel_json (n, shown view.now))) }
    ensures err { OnErr result (AppendsFront (W.contents writer.old)
        (W.contents writer.new) (piece.old.items ++ channel_json (n, shown view.now))) }
{
    put_head(piece, writer, n, view)?;
    put_messages(piece, writer, view.kind, view.taken)?;
    put_end(piece, writer, view)
}

/// The channels.
fn put_channels<W: Write>(
    piece: &mut Piece,
    writer: &mut W,
    views: &[ChannelView<'_>],
) -> Result<(), WriteFailed>
    ensures ok { OnOk result
        (Passes (W.contents writer.old) piece.old.items (W.contents writer.new) piece.new.items
        (flat_map channel_json (enumerate_from 0 (map shown views.now)))) }
    ensures err { OnErr result
        (AppendsFront (W.contents writer.old) (W.contents writer.new)
        (piece.old.items ++ flat_map channel_json (enumerate_from 0 (map shown views.now)))) }
{
    for (n, view) in views.iter().enumerate() {
        put_channel(piece, writer, n, view)?;
    }
    Ok(())
}

/// What follows the channels: how the run ended.
fn end_text<'a>(close: Close) -> &'a [u8]
    ensures { result.now ≡ codes "],\"end\":\"" ++ end_word close ++ codes "\"" }
{
    match close {
        Close::Done => b"],\"end\":\"done\"",
        Close::Quiet => b"],\"end\":\"quiet\"",
        Close::Limit | Close::GateClosed | Close::ClockFull => b"],\"end\":\"limit\"",
        Close::Failed(_) => b"],\"end\":\"memory\"",
    }
}

/// A run's traffic, as the beginning of a JSON object: its channels, and how it ended.
pub(crate) fn put_traffic<W: Write>(
    piece: &mut Piece,
    writer: &mut W,
    views: &[ChannelView<'_>],
    close: Close,
) -> Result<(), WriteFailed>
    ensures ok { OnOk result
        (Passes (W.contents writer.old) piece.old.items (W.contents writer.new) piece.new.items
        (traffic_json (map shown views.now) close)) }
    ensures err { OnErr result
        (AppendsFront (W.contents writer.old) (W.contents writer.new)
        (piece.old.items ++ traffic_json (map shown views.now) close)) }
{
    put(piece, writer, b"{\"channels\":[")?;
    put_channels(piece, writer, views)?;
    put(piece, writer, end_text(close))
}
