//! A line from elsewhere, as it is printed.
ghost use Rattle.std.specs.Prelude.{◌≡◌, ◌++◌, OnOk};
ghost use Rattle.vc_trace.specs.Escapes.{escaped, escaped_byte, is_plain as is_printed};
ghost use Rattle.vc_trace.specs.Replay.{ended_line};

use vc_packets::Memory;

/// Reports whether a byte is printed as it is: a newline, or a printable character of ASCII that is no backslash.
fn is_plain(byte: u8) -> bool
    ensures { result ≡ is_printed byte }
{
    byte == 10 || (byte >= 32 && byte < 127 && byte != 92)
}

/// Adds a byte to a text: as it is, or else as `\x` and two digits.
fn push_byte(out: &mut Vec<u8>, byte: u8) -> Result<(), Memory>
    ensures { OnOk result (out.new.items ≡ out.old.items ++ escaped_byte byte) }
{
    if is_plain(byte) {
        out.push(byte)?;
        return Ok(());
    }
    let mut digits = [0u8; 2];
    let _written = hex::encode_to_slice([byte].as_slice(), digits.as_mut_slice());
    out.extend_from_slice(b"\\x")?;
    out.extend_from_slice(digits.as_slice())?;
    Ok(())
}

fn push_escaped(out: &mut Vec<u8>, line: &[u8]) -> Result<(), Memory>
    ensures { OnOk result (out.new.items ≡ out.old.items ++ escaped line.now) }
{
    for byte in line {
        push_byte(out, *byte)?;
    }
    Ok(())
}

/// Adds a line to a text, and a newline if it has none. Each byte that is no printable character of ASCII, and each
/// backslash, is `\x` and two digits there, so that a line from elsewhere does nothing to a terminal. It fails only when out of memory.
#[tactic(auto, using(crate::proofs::EscapedLines::escaped_end, std::proofs::Common::append_assoc))]
pub(crate) fn push_line(out: &mut Vec<u8>, line: &[u8]) -> Result<(), Memory>
    ensures { OnOk result (out.new.items ≡ out.old.items ++ escaped (ended_line line.now)) }
{
    push_escaped(out, line)?;
    if line.ends_with(b"\n".as_slice()) {
        return Ok(());
    }
    out.push(b'\n')?;
    Ok(())
}
