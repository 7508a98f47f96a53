//! What the label of a channel says of its messages and of its packet.
ghost use Rattle.std.specs.Prelude.{◌≡◌, ◌++◌, Some, Option, map, slice_get, IfOk, OnOk};
ghost use Rattle.std.specs.List.{enumerate_from};
ghost use Rattle.vc_core.specs.State.{IsNetworkOf, shown, state_of};
ghost use Rattle.vc_draw.specs.State.{channel_label as label_of_channel, counts_line, packet_line, place_at as place_in};
ghost use Rattle.vc_text.specs.Views.{shown as traffic_of};

use sqlite_items::Items;
use std::alloc::Global;
use vc_core::{Network, Place};
use vc_packets::{Bytes, Memory};
use vc_plan::{Channel, Plan};
use vc_text::{ChannelView, push_counts, view_of};
use vc_waits::push_place;

/// How many messages were offered, taken and finished, unless the channel is quiet.
fn push_counts_line(out: &mut Vec<u8>, view: &ChannelView<'_>) -> Result<(), Memory>
    ensures { OnOk result (out.new.items ≡ out.old.items ++ counts_line (traffic_of view.now)) }
{
    if view.is_stopped || view.offered > 0 {
        out.extend_from_slice(b"\\n")?;
        push_counts(out, view)?;
    }
    Ok(())
}

/// Where the packet of the channel of this number is, if it has one.
fn place_at(places: &[Option<Place>], number: usize) -> Option<Place>
    ensures { result ≡ place_in places.now number }
{
    match places.get(number) {
        Some(place) => *place,
        None => None,
    }
}

/// The line of a packet that is at this place, if there is one.
fn push_packet(out: &mut Vec<u8>, plan: &Plan, place: Option<Place>) -> Result<(), Memory>
    ensures { OnOk result (out.new.items ≡ out.old.items ++ packet_line plan.now place) }
{
    match place {
        Some(place) => {
            out.extend_from_slice(b"\\npacket")?;
            push_place(out, plan, place)
        }
        None => Ok(()),
    }
}

/// What the label of the channel of this number says.
fn channel_label(
    alloc: Global,
    plan: &Plan,
    network: &Network,
    places: &[Option<Place>],
    number: usize,
    channel: &Channel,
) -> Result<Vec<u8>, Memory>
    requires is { IsNetworkOf plan.now (state_of network.now) }
    requires there { slice_get plan.now.channels number ≡ Some channel.now }
    ensures { IfOk result (λ lines. lines.items ≡
        label_of_channel plan.now (shown (state_of network.now)) places.now (number, channel.now)) }
{
    let mut lines = Vec::new(alloc);
    push_counts_line(&mut lines, &view_of(network, number as u16))?;
    push_packet(&mut lines, plan, place_at(places, number))?;
    Ok(lines)
}

/// What the labels of all channels say.
pub(crate) fn channel_labels(
    alloc: Global,
    plan: &Plan,
    network: &Network,
    places: &[Option<Place>],
) -> Result<Items<Bytes>, Memory>
    requires { IsNetworkOf plan.now (state_of network.now) }
    ensures { IfOk result (λ labels. labels
        ≡ map (label_of_channel plan.now (shown (state_of network.now)) places.now)
        (enumerate_from 0 plan.now.channels)) }
{
    let mut labels = Items::new(alloc);
    for (number, channel) in plan.channels.as_slice().iter().enumerate() {
        let lines = channel_label(alloc, plan, network, places, number, channel)?;
        labels.push(Bytes::from_vec(lines))?;
    }
    Ok(labels)
}
