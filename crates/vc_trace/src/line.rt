//! Lines of a reader.
ghost use Rattle.std.specs.Prelude.{◌≡◌, IfErr, OnOk};
ghost use Rattle.std.specs.Io.KnownBytes.{Consumes};
ghost use Rattle.vc_trace.specs.Lines.{IsLineBefore, left};

use arrayvec::ArrayVec;
use std::io::Read;
use vc_text::RunFault;

/// A line with its newline, or the first 256 bytes of a longer one.
pub(crate) type Line = ArrayVec<u8, 256>;

/// Reads a line, or the first 256 bytes of a longer one. At the end of the text the line has no newline.
pub(crate) fn read_line<R: Read>(reader: &mut R, line: &mut Line) -> Result<(), RunFault>
    ensures read { OnOk result
        (Consumes (R.remaining reader.old) (R.remaining reader.new) line.new.items) }
    ensures line { OnOk result (IsLineBefore (left (R.remaining reader.new)) line.new.items) }
    ensures fault { IfErr result (λ fault. fault ≡ RunFault.Read) }
{
    let mut byte = [0u8];
    line.clear();
    while !line.is_full() {
        match reader.read(&mut byte) {
            Ok(0) => return Ok(()),
            Ok(_) => line.push(byte[0]),
            Err(_) => return Err(RunFault::Read),
        }
        if byte[0] == b'\n' {
            return Ok(());
        }
    }
    Ok(())
}
