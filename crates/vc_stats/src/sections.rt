//! The counts of a run, as lines or as JSON.
ghost use Rattle.std.specs.Prelude.{◌≡◌, ◌≤◌, ◌<◌, ◌++◌, List, length, map, OnOk};
ghost use Rattle.std.specs.List.{enumerate_from, flat_map};
ghost use Rattle.vc_core.specs.declared.event.Event.{Event};
ghost use Rattle.vc_stats.specs.Counts.{AreCounts};
ghost use Rattle.vc_stats.specs.Fields.{actors_of};
ghost use Rattle.vc_stats.specs.Monitor.{figures};
ghost use Rattle.vc_stats.specs.Sections.{actor_text, channel_text, end_text, events_text, ports_text, start_text, stats_text, way_text, wire_text};
ghost use Rattle.vc_text.specs.Views.{shown};

use crate::fields::{
    push_begun, push_bound, push_figures, push_kinds, push_packets, push_puts, push_taken,
    push_unfinished,
};
use crate::form::Form;
use crate::json::{push_line_start, push_named};
use crate::state_figures::{StateFigures, WayFigures};
use crate::stats::Stats;
use vc_packets::Memory;
use vc_plan::{Plan, Port, Wire};
use vc_text::{ChannelView, push_number, push_port};

/// How many events there are, and how many of each kind.
#[tactic(auto, using(std::proofs::Common::append_assoc), unfolding(crate::specs::Sections::events_text))]
fn push_events(out: &mut Vec<u8>, form: Form, stats: &Stats) -> Result<(), Memory>
    ensures { (es : List Event) → AreCounts stats.now es →
        OnOk result (out.new.items ≡ out.old.items ++ events_text form es) }
{
    out.extend_from_slice(form.text(b"stats events ", b",\"stats\":{\"events\":"))?;
    push_number(out, stats.events())?;
    push_kinds(out, form, stats, None)
}

/// The beginning of the n-th thing of a section, with its name.
fn push_start(
    out: &mut Vec<u8>,
    form: Form,
    words: &[u8],
    n: usize,
    name: &[u8],
) -> Result<(), Memory>
    ensures { OnOk result (out.new.items ≡
        out.old.items ++ start_text form words.now n name.now) }
{
    match form {
        Form::Lines => {
            out.extend_from_slice(words)?;
            out.extend_from_slice(name)?;
            Ok(())
        }
        Form::Json => push_named(out, n, name),
    }
}

/// The end of a thing of a section.
fn push_end(out: &mut Vec<u8>, form: Form) -> Result<(), Memory>
    ensures { OnOk result (out.new.items ≡ out.old.items ++ end_text form) }
{
    out.extend_from_slice(form.text(b"\n", b"}"))?;
    Ok(())
}

/// The events of the actor of this number.
#[tactic(auto, using(std::proofs::Common::append_assoc), unfolding(crate::specs::Sections::actor_text))]
fn push_actor(
    out: &mut Vec<u8>,
    form: Form,
    plan: &Plan,
    stats: &Stats,
    actor: usize,
) -> Result<(), Memory>
    ensures { (es : List Event) → AreCounts stats.now es →
        OnOk result (out.new.items ≡ out.old.items ++ actor_text form plan.now es actor) }
{
    push_start(out, form, b"stats actor ", actor, plan.actor_name(actor))?;
    push_kinds(out, form, stats, Some(actor))?;
    push_end(out, form)
}

/// The nodes and the switches.
fn push_actors(out: &mut Vec<u8>, form: Form, plan: &Plan, stats: &Stats) -> Result<(), Memory>
    requires nodes { length plan.now.nodes ≤ 32 }
    requires switches { length plan.now.switches ≤ 32 }
    ensures { (es : List Event) → AreCounts stats.now es → OnOk result (out.new.items ≡
        out.old.items ++ flat_map (actor_text form plan.now es) (actors_of plan.now)) }
{
    for actor in 0..plan.nodes.len() + plan.switches.len() {
        push_actor(out, form, plan, stats, actor)?;
    }
    Ok(())
}

/// The beginning of a way, with its two ports, as a line.
#[tactic(auto, using(std::proofs::Common::append_assoc))]
fn push_ports_line(out: &mut Vec<u8>, plan: &Plan, from: Port, to: Port) -> Result<(), Memory>
    ensures { OnOk result (out.new.items ≡
        out.old.items ++ ports_text Form.Lines plan.now 0 from to) }
{
    out.extend_from_slice(b"stats wire ")?;
    push_port(out, plan, from)?;
    out.extend_from_slice(b" ")?;
    push_port(out, plan, to)
}

/// The beginning of a way, with its two ports, as JSON.
#[tactic(auto, using(std::proofs::Common::append_assoc))]
fn push_ports_json(
    out: &mut Vec<u8>,
    plan: &Plan,
    way: usize,
    from: Port,
    to: Port,
) -> Result<(), Memory>
    ensures { OnOk result (out.new.items ≡
        out.old.items ++ ports_text Form.Json plan.now way from to) }
{
    push_line_start(out, way)?;
    out.extend_from_slice(b"{\"from\":\"")?;
    push_port(out, plan, from)?;
    out.extend_from_slice(b"\",\"to\":\"")?;
    push_port(out, plan, to)?;
    out.extend_from_slice(b"\"")?;
    Ok(())
}

/// The beginning of the way of this number, with its two ports.
fn push_ports(
    out: &mut Vec<u8>,
    form: Form,
    plan: &Plan,
    way: usize,
    from: Port,
    to: Port,
) -> Result<(), Memory>
    ensures { OnOk result (out.new.items ≡
        out.old.items ++ ports_text form plan.now way from to) }
{
    match form {
        Form::Lines => push_ports_line(out, plan, from, to),
        Form::Json => push_ports_json(out, plan, way, from, to),
    }
}

/// What went over the way of this number, from one port to the other.
#[tactic(auto, using(std::proofs::Common::append_assoc), unfolding(crate::specs::Sections::way_text))]
fn push_way(
    out: &mut Vec<u8>,
    form: Form,
    plan: &Plan,
    stats: &Stats,
    ways: &[WayFigures],
    way: usize,
    from: Port,
    to: Port,
) -> Result<(), Memory>
    requires { length plan.now.nodes ≤ 32 }
    ensures { (es : List Event) → AreCounts stats.now es → OnOk result (out.new.items ≡
        out.old.items ++ way_text form plan.now es ways.now way from to) }
{
    push_ports(out, form, plan, way, from, to)?;
    push_puts(out, form, stats, plan.nodes.len(), from)?;
    push_packets(out, form, ways, way)?;
    push_bound(out, form, stats, plan.nodes.len(), from)?;
    push_figures(out, form, ways, way)?;
    push_end(out, form)
}

/// Both ways of the n-th wire.
#[tactic(auto, using(std::proofs::Common::append_assoc))]
fn push_wire(
    out: &mut Vec<u8>,
    form: Form,
    plan: &Plan,
    stats: &Stats,
    ways: &[WayFigures],
    n: usize,
    wire: &Wire,
) -> Result<(), Memory>
    requires nodes { length plan.now.nodes ≤ 32 }
    requires wires { n < 256 }
    ensures { (es : List Event) → AreCounts stats.now es → OnOk result (out.new.items ≡
        out.old.items ++ wire_text form plan.now es ways.now (n, wire.now)) }
{
    push_way(out, form, plan, stats, ways, 2 * n, wire.one, wire.two)?;
    push_way(out, form, plan, stats, ways, 2 * n + 1, wire.two, wire.one)
}

/// The wires.
fn push_wires(
    out: &mut Vec<u8>,
    form: Form,
    plan: &Plan,
    stats: &Stats,
    ways: &[WayFigures],
    wires: &[Wire],
) -> Result<(), Memory>
    requires nodes { length plan.now.nodes ≤ 32 }
    requires wires { length wires.now ≤ 256 }
    ensures { (es : List Event) → AreCounts stats.now es → OnOk result (out.new.items ≡
        out.old.items
        ++ flat_map (wire_text form plan.now es ways.now) (enumerate_from 0 wires.now)) }
{
    for (n, wire) in wires.iter().enumerate() {
        push_wire(out, form, plan, stats, ways, n, wire)?;
    }
    Ok(())
}

/// What began on the n-th channel, and what was taken.
#[tactic(auto, using(std::proofs::Common::append_assoc), unfolding(crate::specs::Sections::channel_text))]
fn push_channel(
    out: &mut Vec<u8>,
    form: Form,
    stats: &Stats,
    unfinished: &[u64],
    n: usize,
    view: &ChannelView<'_>,
) -> Result<(), Memory>
    ensures { (es : List Event) → AreCounts stats.now es → OnOk result (out.new.items ≡
        out.old.items ++ channel_text form es unfinished.now (n, shown view.now)) }
{
    push_start(out, form, b"stats channel ", n, view.name.as_bytes())?;
    push_begun(out, form, stats, n)?;
    push_taken(out, form, view.taken)?;
    push_unfinished(out, form, unfinished, n)?;
    push_end(out, form)
}

/// The channels.
fn push_channels(
    out: &mut Vec<u8>,
    form: Form,
    stats: &Stats,
    unfinished: &[u64],
    views: &[ChannelView<'_>],
) -> Result<(), Memory>
    ensures { (es : List Event) → AreCounts stats.now es → OnOk result (out.new.items ≡
        out.old.items
        ++ flat_map (channel_text form es unfinished.now)
        (enumerate_from 0 (map shown views.now))) }
{
    for (n, view) in views.iter().enumerate() {
        push_channel(out, form, stats, unfinished, n, view)?;
    }
    Ok(())
}

/// Adds the counts of a run to a text: those of all events, of each actor, of both ways of each wire, and of each channel. They are
/// lines, or a member of a JSON object. It fails only when out of memory.
#[tactic(auto, using(std::proofs::Common::append_assoc), unfolding(crate::specs::Sections::stats_text))]
pub(crate) fn push_stats(
    out: &mut Vec<u8>,
    form: Form,
    plan: &Plan,
    stats: &Stats,
    states: &StateFigures,
    views: &[ChannelView<'_>],
) -> Result<(), Memory>
    requires nodes { length plan.now.nodes ≤ 32 }
    requires switches { length plan.now.switches ≤ 32 }
    requires wires { length plan.now.wires ≤ 256 }
    ensures { (es : List Event) → AreCounts stats.now es → OnOk result (out.new.items ≡
        out.old.items
        ++ stats_text form plan.now es (figures states.now) (map shown views.now)) }
{
    let ways = states.ways.as_slice();
    let unfinished = states.unfinished.as_slice();
    push_events(out, form, stats)?;
    out.extend_from_slice(form.text(b"\n", b",\"actors\":["))?;
    push_actors(out, form, plan, stats)?;
    out.extend_from_slice(form.text(b"", b"],\"wires\":["))?;
    push_wires(out, form, plan, stats, ways, plan.wires.as_slice())?;
    out.extend_from_slice(form.text(b"", b"],\"channels\":["))?;
    push_channels(out, form, stats, unfinished, views)?;
    out.extend_from_slice(form.text(b"", b"]}"))?;
    Ok(())
}
