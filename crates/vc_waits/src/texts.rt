//! Texts one after the other.
ghost use Rattle.std.specs.Prelude.{◌≡◌, ◌++◌, OnErr, OnOk};
ghost use Rattle.std.specs.List.{flat_map};

use vc_packets::Memory;

/// Adds texts to a text, one after the other. It fails only when out of memory, and the text is then as it was.
pub fn push_texts(out: &mut Vec<u8>, texts: &[&[u8]]) -> Result<(), Memory>
    ensures ok { OnOk result
        (out.new.items ≡ out.old.items ++ flat_map (λ text. text.now) texts.now) }
    ensures err { OnErr result (out.new.items ≡ out.old.items) }
{
    let start = out.len();
    for text in texts {
        if out.extend_from_slice(text).is_err() {
            out.truncate(start);
            return Err(Memory);
        }
    }
    Ok(())
}
