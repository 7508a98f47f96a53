//! Whether each link of a group is on a wire.

ghost use Rattle.std.specs.Prelude.{IsTrue, ◌↔◌};
ghost use Rattle.vc_plan.specs.Wires.{AreWiredRows, HasWire, IsWiredAction};

use crate::hops::far_end;
use crate::plan::Plan;
use crate::port::{Port, Spot};
use vc_labels::{Action, Row};

fn has_wire(net: &Plan, switch: u8, link: u8) -> bool
    ensures { IsTrue result ↔ HasWire net.now switch link }
{
    far_end(
        net.wires.as_slice(),
        Port {
            spot: Spot::Switch(switch),
            link,
        },
    )
    .is_some()
}

fn is_wired_action(net: &Plan, switch: u8, action: Action) -> bool
    ensures { IsTrue result ↔ IsWiredAction net.now switch action }
{
    match action {
        Action::Portal => true,
        Action::Out { first, last } => {
            if last < first {
                return false;
            }
            for link in first..=last {
                if !has_wire(net, switch, link) {
                    return false;
                }
            }
            true
        }
    }
}

pub(crate) fn are_wired(net: &Plan, switch: u8, rows: &[Row]) -> bool
    ensures { IsTrue result ↔ AreWiredRows net.now switch rows.now }
{
    for row in rows {
        if !is_wired_action(net, switch, row.action) {
            return false;
        }
    }
    true
}
