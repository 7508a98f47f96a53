//! From a reader to a writer.
ghost use Rattle.vc_label_run.specs.Labels.{Labels};

use std::alloc::Global;
use std::io::{Read, Write};
use vc_label_text::label_text;
use vc_text::{RunFault, read_all, write_text};

/// Reads a network file without labelling, and writes the whole file of its network. A text that is refused, a network that can't be
/// labelled and a plan that is refused are answered, and nothing is written then.
pub fn run_label<R: Read, W: Write>(
    alloc: Global,
    reader: &mut R,
    writer: &mut W,
) -> Result<(), RunFault>
    ensures { Labels (R.remaining reader.old) (W.contents writer.old) (W.contents writer.new)
        result }
{
    let text = read_all(alloc, reader)?;
    match label_text(alloc, text.as_slice()) {
        Ok(made) => write_text(writer, made.as_slice()),
        Err(refused) => Err(RunFault::from(refused)),
    }
}
