//! The labelling checker by itself.
ghost use Rattle.std.specs.Prelude.{◌↔◌, IfOk, IsTrue};
ghost use Rattle.vc_plan.specs.Accepted.{IsAccepted};

use std::alloc::Global;
use vc_packets::Memory;
use vc_plan::{CheckRefused, Plan, check};

/// Whether every path of a plan delivers, and it keeps every other rule: exactly.
pub fn is_well_labelled(alloc: Global, plan: Plan) -> Result<bool, Memory>
    ensures { IfOk result (λ yes. IsTrue yes ↔ IsAccepted plan) }
{
    match check(alloc, plan) {
        Ok(_accepted) => Ok(true),
        Err(refusal) => match refusal.why {
            CheckRefused::Memory => Err(Memory),
            _ => Ok(false),
        },
    }
}
