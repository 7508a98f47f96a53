//! Reading all of a reader, and writing a whole text.
ghost use Rattle.std.specs.Prelude.{◌≤◌, length, IfOk, IfErr};
ghost use Rattle.vc_text.specs.Streams.{IsAllOf, Writes, IsReadFault, most_bytes};

use crate::fault::RunFault;
use std::alloc::Global;
use std::io::{Read, Write};

/// No network file is longer.
const MOST_BYTES: usize = 16777216;

/// A reader that hasn't ended after so many reads is taken to have no end.
const MOST_READS: u32 = 1048576;

/// All that the reader has, at most 16,777,216 bytes in at most 1,048,576 reads. It fails where the reader fails or has more, or for
/// want of memory; how far the reader was read is not said then.
pub fn read_all<R: Read>(alloc: Global, reader: &mut R) -> Result<Vec<u8>, RunFault>
    ensures all { IfOk result (λ bytes. IsAllOf (R.remaining reader.old) bytes.items) }
    ensures limit { IfOk result (λ bytes. length bytes.items ≤ most_bytes) }
    ensures fault { IfErr result IsReadFault }
{
    let mut bytes = Vec::new(alloc);
    let mut chunk = [0u8; 4096];
    for _ in 0..MOST_READS {
        let n = match reader.read(&mut chunk) {
            Ok(n) => n,
            Err(_) => return Err(RunFault::Read),
        };
        if n == 0 {
            return Ok(bytes);
        }
        if n > MOST_BYTES - bytes.len() {
            return Err(RunFault::Read);
        }
        bytes.extend_from_slice(&chunk[..n])?;
    }
    Err(RunFault::Read)
}

/// Writes all of the text by as many writes as it takes. An error of the writer, or a write of no bytes, is a fault.
pub fn write_text<W: Write>(writer: &mut W, text: &[u8]) -> Result<(), RunFault>
    ensures { Writes (W.contents writer.old) (W.contents writer.new) text.now result }
{
    let mut done = 0;
    while done < text.len() {
        match writer.write(&text[done..]) {
            Ok(0) => return Err(RunFault::Write),
            Ok(n) => done += n,
            Err(_) => return Err(RunFault::Write),
        }
    }
    Ok(())
}
