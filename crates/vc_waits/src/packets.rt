//! The text of where the packets of a network are.
ghost use Rattle.std.specs.Prelude.{◌≡◌, ◌++◌, List, IfOk, OnErr, OnOk, Option, codes};
ghost use Rattle.vc_core.specs.Replay.{Reached};
ghost use Rattle.vc_core.specs.State.{shown, state_of};
ghost use Rattle.vc_core.specs.declared.event.Event.{Event};
ghost use Rattle.vc_waits.specs.Packets.{AddsWaits, ArePlaces, IsWaitsText, packet_line, packets_text, place_text, ports_text, wire_text};

use crate::texts::push_texts;
use crate::waits::push_processes;
use itoa::Buffer;
use std::alloc::Global;
use vc_core::{Network, Place};
use vc_packets::Memory;
use vc_plan::{Plan, Wire};

/// Where the packet of each channel is, in order. It fails only when out of memory.
pub fn places(alloc: Global, network: &Network) -> Result<Vec<Option<Place>>, Memory>
    ensures { (p : Plan) (events : List Event) → Reached p events (state_of network.now) →
        IfOk result (λ places. ArePlaces p (shown (state_of network.now)) places.items) }
{
    let mut places = Vec::new(alloc);
    for chan in 0..network.channels() {
        places.push(network.place(chan))?;
    }
    Ok(places)
}

/// Adds to a text the two ports of a wire, from the one where the packet went in. It fails only when out of memory, and the text is then
/// as it was.
pub fn push_ports(out: &mut Vec<u8>, plan: &Plan, wire: &Wire, from_one: bool) -> Result<(), Memory>
    ensures ok { OnOk result (out.new.items
        ≡ out.old.items ++ ports_text plan.now wire.now from_one) }
    ensures err { OnErr result (out.new.items ≡ out.old.items) }
{
    push_behind(out, b"", plan, wire, from_one)
}

/// Adds a text, and after it the ports of a wire.
#[tactic(auto, using(std::proofs::Common::append_assoc))]
fn push_behind(
    out: &mut Vec<u8>,
    text: &[u8],
    plan: &Plan,
    wire: &Wire,
    from_one: bool,
) -> Result<(), Memory>
    ensures ok { OnOk result (out.new.items
        ≡ out.old.items ++ (text.now ++ ports_text plan.now wire.now from_one)) }
    ensures err { OnErr result (out.new.items ≡ out.old.items) }
{
    let (from, to) = if from_one {
        (wire.one, wire.two)
    } else {
        (wire.two, wire.one)
    };
    let (mut near, mut far) = (Buffer::new(), Buffer::new());
    let texts: [&[u8]; 8] = [
        text,
        plan.spot_name(from.spot),
        b".",
        near.format(from.link).as_bytes(),
        b" ",
        plan.spot_name(to.spot),
        b".",
        far.format(to.link).as_bytes(),
    ];
    push_texts(out, &texts)
}

/// Adds the wire of a number, by its ports.
fn push_wire(out: &mut Vec<u8>, plan: &Plan, number: u16, from_one: bool) -> Result<(), Memory>
    ensures ok { OnOk result (out.new.items
        ≡ out.old.items ++ (codes " on the wire " ++ wire_text plan.now number from_one)) }
    ensures err { OnErr result (out.new.items ≡ out.old.items) }
{
    match plan.wires.get(usize::from(number)) {
        Some(wire) => push_behind(out, b" on the wire ", plan, wire, from_one),
        None => push_texts(out, &[b" on the wire "]),
    }
}

/// Adds to a text where a packet is. It fails only when out of memory, and the text is then as it was.
pub fn push_place(out: &mut Vec<u8>, plan: &Plan, place: Place) -> Result<(), Memory>
    ensures ok { OnOk result (out.new.items ≡ out.old.items ++ place_text plan.now place) }
    ensures err { OnErr result (out.new.items ≡ out.old.items) }
{
    match place {
        Place::Queue(node) => push_texts(out, &[b" queued at ", plan.node_name(usize::from(node))]),
        Place::Wire(number, from_one) => push_wire(out, plan, number, from_one),
        Place::Inside(switch, link) => {
            let mut digits = Buffer::new();
            let link = digits.format(link).as_bytes();
            let name = plan.switch_name(usize::from(switch));
            push_texts(out, &[b" in ", name, b" at link ", link])
        }
        Place::Held(node) => push_texts(out, &[b" held at ", plan.node_name(usize::from(node))]),
    }
}

/// The line of the packet of a channel, where it has one.
#[tactic(auto, using(std::proofs::Common::append_assoc))]
fn push_packet(
    out: &mut Vec<u8>,
    plan: &Plan,
    chan: usize,
    place: Option<Place>,
) -> Result<(), Memory>
    ensures { OnOk result (out.new.items ≡ out.old.items ++ packet_line plan.now (chan, place)) }
{
    if let Some(place) = place {
        out.extend_from_slice(b"packet ")?;
        out.extend_from_slice(plan.channel_name(chan))?;
        push_place(out, plan, place)?;
        out.push(10)?;
    }
    Ok(())
}

fn push_packets(out: &mut Vec<u8>, plan: &Plan, places: &[Option<Place>]) -> Result<(), Memory>
    ensures { OnOk result (out.new.items ≡ out.old.items ++ packets_text plan.now places.now) }
{
    for (chan, place) in places.iter().enumerate() {
        push_packet(out, plan, chan, *place)?;
    }
    Ok(())
}

/// The text of who waits for what, and of where the packets are.
fn waits_text(alloc: Global, plan: &Plan, network: &Network) -> Result<Vec<u8>, Memory>
    requires { (events : List Event) × Reached plan.now events (state_of network.now) }
    ensures { IfOk result (λ text.
        IsWaitsText plan.now (shown (state_of network.now)) text.items) }
{
    let places = places(alloc, network)?;
    let mut text = Vec::new(alloc);
    push_processes(alloc, &mut text, plan, network)?;
    push_packets(&mut text, plan, places.as_slice())?;
    Ok(text)
}

/// Adds to a text a line for each part of a process of the plan's network that does not go on by itself, and then one for each packet of
/// an output that is not finished. A line of a process says what it waits for, or how it has stopped, and a line of a packet where it is.
/// The nodes, the parts of a process and the channels come in the file's order. It fails only when out of memory, and the text is then
/// as it was.
pub fn push_waits(
    alloc: Global,
    out: &mut Vec<u8>,
    plan: &Plan,
    network: &Network,
) -> Result<(), Memory>
    requires { (events : List Event) × Reached plan.now events (state_of network.now) }
    ensures ok { AddsWaits plan.now (shown (state_of network.now))
        out.old.items out.new.items result }
    ensures err { OnErr result (out.new.items ≡ out.old.items) }
{
    let text = waits_text(alloc, plan, network)?;
    out.extend_from_slice(text.as_slice())?;
    Ok(())
}
