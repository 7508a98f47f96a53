//! Bytes as hexadecimal digits.
ghost use Rattle.std.specs.Prelude.{◌≤◌, ◌++◌, ◌*◌, length, OnErr, OnOk};
ghost use Rattle.hex.specs.Hex.{encode_lower};
ghost use Rattle.vc_text.specs.Pieces.{Passes};
ghost use Rattle.vc_text.specs.Streams.{AppendsFront};

use crate::pieces::{Piece, WriteFailed, put};
use std::io::Write;

/// The most digits that are made at once.
const DIGITS: usize = 128;

/// Two digits for each of the first bytes of a message.
fn put_first<W: Write>(piece: &mut Piece, writer: &mut W, bytes: &[u8]) -> Result<(), WriteFailed>
    requires { 2 * length bytes.now ≤ 128 }
    ensures ok { OnOk result (Passes (W.contents writer.old) piece.old.items
        (W.contents writer.new) piece.new.items (encode_lower bytes.now)) }
    ensures err { OnErr result (AppendsFront (W.contents writer.old)
        (W.contents writer.new) (piece.old.items ++ encode_lower bytes.now)) }
{
    let mut room = [0u8; DIGITS];
    let (digits, _) = room.as_mut_slice().split_at_mut(2 * bytes.len());
    let _written = hex::encode_to_slice(bytes, digits);
    put(piece, writer, digits)
}

/// Adds bytes to what the buffer holds, two digits each. If the writer fails, it has got a prefix of what the buffer held and the digits.
pub fn put_digits<W: Write>(
    piece: &mut Piece,
    writer: &mut W,
    bytes: &[u8],
) -> Result<(), WriteFailed>
    ensures ok { OnOk result (Passes (W.contents writer.old) piece.old.items
        (W.contents writer.new) piece.new.items (encode_lower bytes.now)) }
    ensures err { OnErr result (AppendsFront (W.contents writer.old)
        (W.contents writer.new) (piece.old.items ++ encode_lower bytes.now)) }
{
    let mut rest = bytes;
    while !rest.is_empty() {
        let (first, others) = rest.split_at(rest.len().min(DIGITS / 2));
        put_first(piece, writer, first)?;
        rest = others;
    }
    Ok(())
}
