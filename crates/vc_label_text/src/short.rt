//! What the short form of a network file leaves out.
ghost use Rattle.std.specs.Prelude.{◌≡◌, IfOk, true, false};
ghost use Rattle.vc_label_text.specs.Short.{LacksVlinks};

use serde_json::Value;
use std::alloc::Global;
use vc_packets::Memory;

/// Whether a text is JSON whose value has no field `vlinks`. The call fails only when out of memory.
pub fn lacks_vlinks(alloc: Global, text: &[u8]) -> Result<bool, Memory>
    ensures lacks { IfOk result (λ lacks. lacks ≡ true → LacksVlinks text.now) }
    ensures has { IfOk result (λ lacks. lacks ≡ false → LacksVlinks text.now → ⊥) }
{
    match Value::from_slice(alloc, text) {
        Ok(value) => Ok(value.get("vlinks").is_none()),
        Err(e) => if e.is_memory() {
            Err(Memory)
        } else {
            Ok(false)
        },
    }
}
