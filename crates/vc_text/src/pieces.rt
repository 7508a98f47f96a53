//! Text that goes to a writer in pieces.
ghost use Rattle.std.specs.Prelude.{◌≡◌, ◌+◌, ◌≤◌, [], ◌++◌, length, OnOk, OnErr};
ghost use Rattle.std.specs.Io.KnownBytes.{Appends};
ghost use Rattle.std.specs.List.{flat_map};
ghost use Rattle.vc_text.specs.Pieces.{Passes};
ghost use Rattle.vc_text.specs.Streams.{AppendsFront};

use crate::streams::write_text;
use arrayvec::ArrayVec;
use std::io::Write;
use thiserror::Error;

/// How many bytes a buffer holds.
const ROOM: usize = 4096;

/// The end of a text, which the writer has still to get: at most 4,096 bytes.
pub type Piece = ArrayVec<u8, 4096>;

/// The writer failed. What it got is a prefix of the text.
#[derive(Clone, Copy, Debug, Drop, Error)]
#[error("the output can't be written")]
pub struct WriteFailed;

// The writer gets a text.
#[tactic(auto, using(crate::proofs::TextWrites::front_none))]
fn pass<W: Write>(writer: &mut W, text: &[u8]) -> Result<(), WriteFailed>
    ensures ok { OnOk result (Appends (W.contents writer.old) (W.contents writer.new) text.now) }
    ensures err { OnErr result (AppendsFront (W.contents writer.old)
        (W.contents writer.new) text.now) }
{
    match write_text(writer, text) {
        Ok(()) => Ok(()),
        Err(_) => Err(WriteFailed),
    }
}

/// Gives the writer what the buffer holds, and empties the buffer. If the writer fails, it has got a prefix of that.
pub fn flush<W: Write>(piece: &mut Piece, writer: &mut W) -> Result<(), WriteFailed>
    ensures ok { OnOk result (Appends (W.contents writer.old)
        (W.contents writer.new) piece.old.items) }
    ensures empty { OnOk result (piece.new.items ≡ []) }
    ensures err { OnErr result (AppendsFront (W.contents writer.old)
        (W.contents writer.new) piece.old.items) }
{
    pass(writer, piece.as_slice())?;
    piece.clear();
    Ok(())
}

// A text for which there is room.
fn hold(piece: &mut Piece, text: &[u8])
    requires { length piece.old.items + length text.now ≤ 4096 }
    ensures { piece.new.items ≡ piece.old.items ++ text.now }
{
    let _held = piece.try_extend_from_slice(text);
}

/// Adds a text to what the buffer holds. If the buffer has too little room, the writer first gets what it holds; a text of more than
/// 4,096 bytes goes straight to the writer. If the writer fails, it has got a prefix of what the buffer held and the text.
#[tactic(auto, using(crate::proofs::TextWrites::front_longer, crate::proofs::TextWrites::front_behind, crate::proofs::TextWrites::passes_whole))]
pub fn put<W: Write>(piece: &mut Piece, writer: &mut W, text: &[u8]) -> Result<(), WriteFailed>
    ensures ok { OnOk result (Passes (W.contents writer.old) piece.old.items
        (W.contents writer.new) piece.new.items text.now) }
    ensures err { OnErr result (AppendsFront (W.contents writer.old)
        (W.contents writer.new) (piece.old.items ++ text.now)) }
{
    if text.len() <= piece.remaining_capacity() {
        hold(piece, text);
        return Ok(());
    }
    flush(piece, writer)?;
    if text.len() > ROOM {
        return pass(writer, text);
    }
    hold(piece, text);
    Ok(())
}

/// Adds texts to what the buffer holds, one after another, each as [`put`] does.
pub fn put_texts<W: Write>(
    piece: &mut Piece,
    writer: &mut W,
    texts: &[&[u8]],
) -> Result<(), WriteFailed>
    ensures ok { OnOk result
        (Passes (W.contents writer.old) piece.old.items (W.contents writer.new) piece.new.items
        (flat_map (λ text. text.now) texts.now)) }
    ensures err { OnErr result (AppendsFront (W.contents writer.old) (W.contents writer.new)
        (piece.old.items ++ flat_map (λ text. text.now) texts.now)) }
{
    for text in texts {
        put(piece, writer, text)?;
    }
    Ok(())
}

/// Adds a text to what the buffer holds, and gives the writer all of it.
#[tactic(auto, using(crate::proofs::TextWrites::passes_all, crate::proofs::TextWrites::passes_front, crate::proofs::TextWrites::front_longer, crate::proofs::TextWrites::front_none))]
pub fn put_last<W: Write>(piece: &mut Piece, writer: &mut W, text: &[u8]) -> Result<(), WriteFailed>
    ensures ok { OnOk result (Appends (W.contents writer.old)
        (W.contents writer.new) (piece.old.items ++ text.now)) }
    ensures err { OnErr result (AppendsFront (W.contents writer.old)
        (W.contents writer.new) (piece.old.items ++ text.now)) }
{
    put(piece, writer, text)?;
    flush(piece, writer)
}
