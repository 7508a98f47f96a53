//! Names and paths of a plan.
ghost use Rattle.std.specs.Prelude.{◌≡◌, ◌++◌, OnErr, OnOk};
ghost use Rattle.vc_text.specs.FaultLine.{hop_text, way_text, start_text, last_text, path_text};
ghost use Rattle.std.specs.List.{flat_map};

use itoa::Buffer;
use vc_packets::Memory;
use vc_plan::{Hop, PathFault, Plan};
use vc_waits::{push_port, push_texts};

/// Adds a passage through a switch to a text, as ` SWITCH.LINK` or ` SWITCH+VALUE.LINK`. It fails only when out of memory, and the text is
/// then as it was.
pub fn push_hop(out: &mut Vec<u8>, plan: &Plan, hop: &Hop) -> Result<(), Memory>
    ensures ok { OnOk result (out.new.items ≡ out.old.items ++ hop_text plan.now hop.now) }
    ensures err { OnErr result (out.new.items ≡ out.old.items) }
{
    let name = plan.switch_name(usize::from(hop.switch));
    let (mut value, mut link) = (Buffer::new(), Buffer::new());
    let link = link.format(hop.link).as_bytes();
    match hop.value {
        Some(drawn) => {
            let value = value.format(drawn).as_bytes();
            push_texts(out, &[b" ", name, b"+", value, b".", link])
        }
        None => push_texts(out, &[b" ", name, b".", link]),
    }
}

fn push_hops(out: &mut Vec<u8>, plan: &Plan, hops: &[Hop]) -> Result<(), Memory>
    ensures { OnOk result (out.new.items ≡ out.old.items ++ flat_map (hop_text plan.now) hops.now) }
{
    for hop in hops {
        push_hop(out, plan, hop)?;
    }
    Ok(())
}

/// Adds a way of a virtual link to a text: `ab` from its end a to its end b, or `ba` back. It fails only when out of memory, and the text
/// is then as it was.
pub fn push_way(out: &mut Vec<u8>, from_a: bool) -> Result<(), Memory>
    ensures ok { OnOk result (out.new.items ≡ out.old.items ++ way_text from_a) }
    ensures err { OnErr result (out.new.items ≡ out.old.items) }
{
    if from_a {
        out.extend_from_slice(b"ab")?;
    } else {
        out.extend_from_slice(b"ba")?;
    }
    Ok(())
}

/// The virtual link, the way and the sending port of a path.
#[tactic(auto, using(std::proofs::Common::append_assoc))]
fn push_start(out: &mut Vec<u8>, plan: &Plan, fault: &PathFault) -> Result<(), Memory>
    ensures { OnOk result (out.new.items ≡ out.old.items ++ start_text plan.now fault.now) }
{
    out.extend_from_slice(plan.vlink_name(usize::from(fault.vlink)))?;
    out.extend_from_slice(b" ")?;
    push_way(out, fault.from_a)?;
    out.extend_from_slice(b" ")?;
    push_port(out, plan, fault.start)
}

/// Adds the place where the fault of a path shows to a text. It fails only when out of memory, and the text is then as it was.
pub fn push_last(out: &mut Vec<u8>, plan: &Plan, fault: &PathFault) -> Result<(), Memory>
    ensures ok { OnOk result (out.new.items ≡ out.old.items ++ last_text plan.now fault.now) }
    ensures err { OnErr result (out.new.items ≡ out.old.items) }
{
    let name = plan.spot_name(fault.last);
    match fault.value {
        Some(drawn) => {
            let mut value = Buffer::new();
            push_texts(out, &[b" ", name, b"+", value.format(drawn).as_bytes()])
        }
        None => push_texts(out, &[b" ", name]),
    }
}

/// A path that doesn't deliver.
#[tactic(auto, using(std::proofs::Common::append_assoc))]
pub(crate) fn push_path(out: &mut Vec<u8>, plan: &Plan, fault: &PathFault) -> Result<(), Memory>
    ensures { OnOk result (out.new.items ≡ out.old.items ++ path_text plan.now fault.now) }
{
    push_start(out, plan, fault)?;
    push_hops(out, plan, fault.hops.as_slice())?;
    push_last(out, plan, fault)
}
