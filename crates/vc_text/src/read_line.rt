//! The line for a network file that is refused.
ghost use Rattle.std.specs.Prelude.{◌≡◌, ◌++◌, OnErr, OnOk};
ghost use Rattle.vc_text.specs.FaultLine.{step_text, steps_text, read_line as line_of_refused};

use itoa::Buffer;
use vc_packets::Memory;
use vc_reader::{Path, ReadRefused, Step};
use vc_waits::push_texts;

/// Adds a step of a path to a text: `/`, and the field or the index. It fails only when out of memory, and the text is then as it was.
pub fn push_step(out: &mut Vec<u8>, step: Step) -> Result<(), Memory>
    ensures ok { OnOk result (out.new.items ≡ out.old.items ++ step_text step) }
    ensures err { OnErr result (out.new.items ≡ out.old.items) }
{
    match step {
        Step::Field(word) => push_texts(out, &[b"/", word.text().as_bytes()]),
        Step::Index(n) => {
            let mut digits = Buffer::new();
            push_texts(out, &[b"/", digits.format(n).as_bytes()])
        }
    }
}

fn push_steps(out: &mut Vec<u8>, path: &Path) -> Result<(), Memory>
    ensures { OnOk result (out.new.items ≡ out.old.items ++ steps_text path.now) }
{
    if path.len() == 0 {
        out.extend_from_slice(b"/")?;
        return Ok(());
    }
    for n in 0..path.len() {
        push_step(out, path.step(n))?;
    }
    Ok(())
}

/// A text, and after it where the fault is.
fn push_refused(out: &mut Vec<u8>, text: &[u8], path: &Path) -> Result<(), Memory>
    ensures { OnOk result (out.new.items ≡ out.old.items ++ (text.now ++ steps_text path.now)) }
{
    out.extend_from_slice(text)?;
    push_steps(out, path)
}

/// The line for a network file that is refused.
pub(crate) fn push_read_line(out: &mut Vec<u8>, refused: &ReadRefused) -> Result<(), Memory>
    ensures { OnOk result (out.new.items ≡ out.old.items ++ line_of_refused refused.now) }
{
    match refused {
        ReadRefused::Json => out.extend_from_slice(b"refused 20 Json")?,
        ReadRefused::Missing(path) => push_refused(out, b"refused 21 Missing ", path)?,
        ReadRefused::Kind(path) => push_refused(out, b"refused 22 Kind ", path)?,
        ReadRefused::Range(path) => push_refused(out, b"refused 23 Range ", path)?,
        ReadRefused::Unknown(path) => push_refused(out, b"refused 24 Unknown ", path)?,
        ReadRefused::Memory => out.extend_from_slice(b"fault memory")?,
    }
    Ok(())
}
