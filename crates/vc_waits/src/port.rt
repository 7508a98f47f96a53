//! Ports in texts.
ghost use Rattle.std.specs.Prelude.{◌≡◌, ◌++◌, OnErr, OnOk};
ghost use Rattle.vc_waits.specs.Ports.{port_text};

use crate::texts::push_texts;
use itoa::Buffer;
use vc_packets::Memory;
use vc_plan::{Plan, Port};

/// Adds a port to a text, as `PLACE.LINK`. It fails only when out of memory, and the text is then as it was.
pub fn push_port(out: &mut Vec<u8>, plan: &Plan, port: Port) -> Result<(), Memory>
    ensures ok { OnOk result (out.new.items ≡ out.old.items ++ port_text plan.now port) }
    ensures err { OnErr result (out.new.items ≡ out.old.items) }
{
    let mut link = Buffer::new();
    let link = link.format(port.link).as_bytes();
    push_texts(out, &[plan.spot_name(port.spot), b".", link])
}
