//! How many switches the packets of each virtual link pass, as it is reported.
ghost use Rattle.std.specs.Prelude.{◌≡◌, ◌++◌, OnOk};
ghost use Rattle.vc_explain.specs.Lengths.{ends_text, length_text, lengths_text, vlink_lines, way_line};

use vc_packets::Memory;
use vc_plan::{End, Plan, Vlink, VlinkLength, WayLength};
use vc_text::push_number;

#[tactic(auto, using(std::proofs::Common::append_assoc), unfolding(crate::specs::Lengths::ends_text))]
fn push_ends(
    out: &mut Vec<u8>,
    plan: &Plan,
    name: &[u8],
    from: &End,
    to: &End,
) -> Result<(), Memory>
    ensures { OnOk result (out.new.items
        ≡ out.old.items ++ ends_text plan.now name.now from.now to.now) }
{
    out.extend_from_slice(b"vlink ")?;
    out.extend_from_slice(name)?;
    out.extend_from_slice(b" from ")?;
    out.extend_from_slice(plan.node_name(usize::from(from.node)))?;
    out.extend_from_slice(b" to ")?;
    out.extend_from_slice(plan.node_name(usize::from(to.node)))?;
    Ok(())
}

fn push_length(out: &mut Vec<u8>, length: WayLength) -> Result<(), Memory>
    ensures { OnOk result (out.new.items ≡ out.old.items ++ length_text length) }
{
    out.extend_from_slice(b" switches least ")?;
    push_number(out, u64::from(length.least))?;
    out.extend_from_slice(b" most ")?;
    push_number(out, u64::from(length.most))?;
    Ok(())
}

/// The line of one way of a virtual link of this name.
#[tactic(auto, using(std::proofs::Common::append_assoc))]
fn push_way_line(
    out: &mut Vec<u8>,
    plan: &Plan,
    name: &[u8],
    from: &End,
    to: &End,
    length: WayLength,
) -> Result<(), Memory>
    ensures { OnOk result (out.new.items
        ≡ out.old.items ++ way_line plan.now name.now from.now to.now length) }
{
    push_ends(out, plan, name, from, to)?;
    push_length(out, length)?;
    out.push(10)?;
    Ok(())
}

/// The lines of a virtual link, one for each way.
#[tactic(auto, using(std::proofs::Common::append_assoc))]
fn push_vlink_lines(
    out: &mut Vec<u8>,
    plan: &Plan,
    vlink: &Vlink,
    length: VlinkLength,
) -> Result<(), Memory>
    ensures { OnOk result (out.new.items
        ≡ out.old.items ++ vlink_lines plan.now (vlink.now, length)) }
{
    let name = vlink.name.as_slice();
    push_way_line(out, plan, name, &vlink.a, &vlink.b, length.there)?;
    push_way_line(out, plan, name, &vlink.b, &vlink.a, length.back)
}

/// The lines of all virtual links.
pub(crate) fn push_lengths(
    out: &mut Vec<u8>,
    plan: &Plan,
    lengths: &[VlinkLength],
) -> Result<(), Memory>
    ensures { OnOk result (out.new.items ≡ out.old.items ++ lengths_text plan.now lengths.now) }
{
    for (vlink, length) in plan.vlinks.as_slice().iter().zip(lengths) {
        push_vlink_lines(out, plan, vlink, *length)?;
    }
    Ok(())
}
