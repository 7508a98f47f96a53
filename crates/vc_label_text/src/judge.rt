//! Whether a plan is a labelling of a network.
ghost use Rattle.std.specs.Prelude.{◌≡◌, All, IfSome, true};
ghost use Rattle.vc_plan.specs.Accepted.{IsAtEnd};
ghost use Rattle.vc_label_text.specs.Labelled.{FitsChannel, FitsWire, HasChannels, HasEnds, HasNames, HasWires, IsLabelling, count as count_of};

use vc_plan::{Channel, Home, Name, Plan, SwitchPlan, Wire};
use vc_process::ValueKind;
use vc_reader::{BareChannel, BareEnds, BareNetwork, BareWire};

/// Whether a wire is one that an entry asks for.
fn fits_wire(entry: &BareWire, wire: &Wire) -> bool
    ensures { result ≡ true → FitsWire entry.now wire.now }
{
    match *entry {
        BareWire::Linked(given) => given == *wire,
        BareWire::Unlinked { one, two, count: _ } => wire.one.spot == one && wire.two.spot == two,
    }
}

fn fit_wires(entry: &BareWire, wires: &[Wire]) -> bool
    ensures { result ≡ true → All (FitsWire entry.now) wires.now }
{
    wires.iter().all(|wire| fits_wire(entry, wire))
}

fn count(entry: &BareWire) -> usize
    ensures { result ≡ count_of entry.now }
{
    match entry {
        BareWire::Linked(_) => 1,
        BareWire::Unlinked { count, .. } => usize::from(*count),
    }
}

/// Whether wires are those of the entries, in order.
fn has_wires(entries: &[BareWire], wires: &[Wire]) -> bool
    ensures { result ≡ true → HasWires entries.now wires.now }
{
    match entries {
        [] => wires.is_empty(),
        [entry, rest @ ..] => {
            let count = count(entry);
            count <= wires.len()
                && fit_wires(entry, &wires[..count])
                && has_wires(rest, &wires[count..])
        }
    }
}

/// Whether a channel's end is at a node, if the file gives one.
fn has_end(plan: &Plan, home: Home, is_output: bool, node: Option<u8>) -> bool
    ensures { result ≡ true → IfSome node (IsAtEnd plan.now home is_output) }
{
    let Some(node) = node else {
        return true;
    };
    match home {
        Home::Inside { node: within } => within == node,
        Home::Way { vlink, from_a } => match plan.vlinks.get(usize::from(vlink)) {
            Some(vlink) => if is_output == from_a {
                vlink.a.node == node
            } else {
                vlink.b.node == node
            },
            None => false,
        },
    }
}

/// Whether a channel has the ends that the file gives.
fn has_ends(plan: &Plan, ends: BareEnds, home: Home) -> bool
    ensures { result ≡ true → HasEnds plan.now ends home }
{
    match ends {
        BareEnds::Within(node) => match home {
            Home::Inside { node: within } => within == node,
            Home::Way { .. } => false,
        },
        BareEnds::Between { from, to } => {
            has_end(plan, home, true, from) && has_end(plan, home, false, to)
        }
    }
}

fn has_kind(given: Option<ValueKind>, kind: ValueKind) -> bool
    ensures { result ≡ true → IfSome given (λ k. kind ≡ k) }
{
    match given {
        Some(given) => kind == given,
        None => true,
    }
}

fn has_name(name: &Name, given: &Name) -> bool
    ensures { result ≡ true → name.now ≡ given.now }
{
    name.as_slice() == given.as_slice()
}

/// Whether a channel is one that the file lists.
fn fits_channel(plan: &Plan, listed: &BareChannel, channel: &Channel) -> bool
    ensures { result ≡ true → FitsChannel plan.now listed.now channel.now }
{
    has_name(&channel.name, &listed.name)
        && has_kind(listed.kind, channel.kind)
        && has_ends(plan, listed.ends, channel.home)
}

/// Whether the first channels are those that the file lists, in order.
fn has_channels(plan: &Plan, listed: &[BareChannel], channels: &[Channel]) -> bool
    ensures { result ≡ true → HasChannels plan.now listed.now channels.now }
{
    match (listed, channels) {
        ([], _) => true,
        ([first, rest @ ..], [channel, others @ ..]) => {
            fits_channel(plan, first, channel) && has_channels(plan, rest, others)
        }
        _ => false,
    }
}

/// Whether switches have these names, in order.
fn has_names(names: &[Name], switches: &[SwitchPlan]) -> bool
    ensures { result ≡ true → HasNames names.now switches.now }
{
    match (names, switches) {
        ([], []) => true,
        ([name, rest @ ..], [switch, others @ ..]) => {
            has_name(&switch.name, name) && has_names(rest, others)
        }
        _ => false,
    }
}

/// Whether a plan has the switches, the wires and the channels of a network.
pub(crate) fn is_labelling(bare: &BareNetwork, plan: &Plan) -> bool
    ensures { result ≡ true → IsLabelling bare.now plan.now }
{
    has_names(bare.switches.as_slice(), plan.switches.as_slice())
        && has_wires(bare.wires.as_slice(), plan.wires.as_slice())
        && has_channels(plan, bare.channels.as_slice(), plan.channels.as_slice())
}
