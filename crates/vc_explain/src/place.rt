//! Places in a text, as they are reported.
ghost use Rattle.std.specs.Prelude.{◌≡◌, ◌++◌, take, OnOk};
ghost use Rattle.vc_text.specs.FaultLine.{steps_text};
ghost use Rattle.vc_explain.specs.Place.{byte_line, column_from, line_from, path_line, place_text};

use crate::parts::value_at;
use vc_packets::Memory;
use vc_reader::Step;
use vc_text::{push_number, push_step};

/// The line and the column after these bytes, both from 1.
fn line_and_column(before: &[u8]) -> (usize, usize)
    ensures line { result.0 ≡ line_from 1 before.now }
    ensures column { result.1 ≡ column_from 1 before.now }
{
    let mut rest = before;
    let mut line = 1usize;
    let mut column = 1usize;
    while let Some((byte, tail)) = rest.split_first() {
        if *byte == b'\n' {
            line += 1;
            column = 1;
        } else {
            column += 1;
        }
        rest = tail;
    }
    (line, column)
}

/// The place after these bytes.
#[tactic(auto, using(std::proofs::Common::append_assoc), unfolding(crate::specs::Place::place_text))]
fn push_place(out: &mut Vec<u8>, before: &[u8]) -> Result<(), Memory>
    ensures { OnOk result (out.new.items ≡ out.old.items ++ place_text before.now) }
{
    let (line, column) = line_and_column(before);
    out.extend_from_slice(b"at line ")?;
    push_number(out, line as u64)?;
    out.extend_from_slice(b" column ")?;
    push_number(out, column as u64)
}

/// The first n bytes, or all where there are fewer.
fn first(text: &[u8], n: usize) -> &[u8]
    ensures { result.now ≡ take n text.now }
{
    match text.get(..n) {
        Some(front) => front,
        None => text,
    }
}

/// The place of byte n.
pub(crate) fn push_byte_line(out: &mut Vec<u8>, text: &[u8], n: usize) -> Result<(), Memory>
    ensures { OnOk result (out.new.items ≡ out.old.items ++ byte_line text.now n) }
{
    push_place(out, first(text, n))?;
    out.push(10)?;
    Ok(())
}

fn push_steps(out: &mut Vec<u8>, path: &[Step]) -> Result<(), Memory>
    ensures { OnOk result (out.new.items ≡ out.old.items ++ steps_text path.now) }
{
    if path.is_empty() {
        out.extend_from_slice(b"/")?;
    }
    for step in path {
        push_step(out, *step)?;
    }
    Ok(())
}

/// The place of the value to which a path leads, and the path.
#[tactic(auto, using(std::proofs::Common::append_assoc), unfolding(crate::specs::Place::path_line))]
pub(crate) fn push_path_line(out: &mut Vec<u8>, text: &[u8], path: &[Step]) -> Result<(), Memory>
    ensures { OnOk result (out.new.items ≡ out.old.items ++ path_line text.now path.now) }
{
    let offset = text.len().saturating_sub(value_at(path, text).len());
    push_place(out, first(text, offset))?;
    out.extend_from_slice(b": ")?;
    push_steps(out, path)?;
    out.push(10)?;
    Ok(())
}
