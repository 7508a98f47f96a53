//! Counts with their names.
ghost use Rattle.std.specs.Prelude.{◌≡◌, ◌≤◌, ◌++◌, List, OnOk};
ghost use Rattle.std.specs.List.{flat_map};
ghost use Rattle.vc_blocks.specs.Messages.{listed};
ghost use Rattle.vc_core.specs.declared.event.Event.{Event};
ghost use Rattle.vc_stats.specs.Counts.{AreCounts};
ghost use Rattle.vc_stats.specs.Fields.{begun_text, bound_text, bytes_of as bytes_in, field_text, figures_text, kind_text, kinds_text, packets_text, puts_text, taken_text, tokens_text, unfinished_text, way_figures_text, whole_text};

use crate::form::Form;
use crate::kind::{KINDS, Kind};
use crate::state_figures::WayFigures;
use crate::stats::Stats;
use vc_blocks::Messages;
use vc_packets::Memory;
use vc_plan::{Port, Spot};
use vc_text::push_number;

/// Adds a count with its name to a text.
#[tactic(auto, using(std::proofs::Common::append_assoc))]
pub(crate) fn push_field(out: &mut Vec<u8>, form: Form, name: &[u8], n: u64) -> Result<(), Memory>
    ensures { OnOk result (out.new.items ≡ out.old.items ++ field_text form name.now n) }
{
    out.extend_from_slice(form.text(b" ", b",\""))?;
    out.extend_from_slice(name)?;
    out.extend_from_slice(form.text(b" ", b"\":"))?;
    push_number(out, n)
}

/// Adds how many events of these kinds there are, of all actors or of one.
fn push_each(
    out: &mut Vec<u8>,
    form: Form,
    stats: &Stats,
    actor: Option<usize>,
    kinds: &[Kind],
) -> Result<(), Memory>
    ensures { (es : List Event) → AreCounts stats.now es → OnOk result (out.new.items ≡
        out.old.items ++ flat_map (kind_text form actor es) kinds.now) }
{
    for kind in kinds {
        push_field(out, form, kind.word(), stats.of_kind(actor, *kind))?;
    }
    Ok(())
}

/// Adds how many events of each kind there are, of all actors or of one.
#[tactic(auto, unfolding(crate::specs::Fields::kinds_text))]
pub(crate) fn push_kinds(
    out: &mut Vec<u8>,
    form: Form,
    stats: &Stats,
    actor: Option<usize>,
) -> Result<(), Memory>
    ensures { (es : List Event) → AreCounts stats.now es →
        OnOk result (out.new.items ≡ out.old.items ++ kinds_text form actor es) }
{
    push_each(out, form, stats, actor, &KINDS)
}

/// Adds how many tokens of packets and flow control tokens an actor put by a link.
#[tactic(auto, using(std::proofs::Common::append_assoc))]
fn push_tokens(
    out: &mut Vec<u8>,
    form: Form,
    stats: &Stats,
    actor: usize,
    link: u8,
) -> Result<(), Memory>
    ensures { (es : List Event) → AreCounts stats.now es →
        OnOk result (out.new.items ≡ out.old.items ++ tokens_text form es actor link) }
{
    push_field(out, form, b"tokens", stats.tokens(actor, link))?;
    push_field(out, form, b"fcts", stats.fcts(actor, link))
}

/// Adds what was put at a port of a plan of so many nodes.
pub(crate) fn push_puts(
    out: &mut Vec<u8>,
    form: Form,
    stats: &Stats,
    nodes: usize,
    port: Port,
) -> Result<(), Memory>
    requires { nodes ≤ 32 }
    ensures { (es : List Event) → AreCounts stats.now es → OnOk result (out.new.items ≡
        out.old.items ++ puts_text form es nodes port.spot port.link) }
{
    match port.spot {
        Spot::Node(node) => push_tokens(out, form, stats, usize::from(node), port.link),
        Spot::Switch(switch) => {
            push_tokens(out, form, stats, nodes + usize::from(switch), port.link)
        }
    }
}

/// Adds how many packets a switch of a plan of so many nodes bound to a port, if the port is one of a switch.
pub(crate) fn push_bound(
    out: &mut Vec<u8>,
    form: Form,
    stats: &Stats,
    nodes: usize,
    port: Port,
) -> Result<(), Memory>
    requires { nodes ≤ 32 }
    ensures { (es : List Event) → AreCounts stats.now es → OnOk result (out.new.items ≡
        out.old.items ++ bound_text form es nodes port.spot port.link) }
{
    match port.spot {
        Spot::Node(_) => Ok(()),
        Spot::Switch(switch) => {
            let bound = stats.bound(nodes + usize::from(switch), port.link);
            push_field(out, form, b"bound", bound)
        }
    }
}

/// Adds how many outputs and inputs began on a channel.
#[tactic(auto, using(std::proofs::Common::append_assoc))]
pub(crate) fn push_begun(
    out: &mut Vec<u8>,
    form: Form,
    stats: &Stats,
    chan: usize,
) -> Result<(), Memory>
    ensures { (es : List Event) → AreCounts stats.now es →
        OnOk result (out.new.items ≡ out.old.items ++ begun_text form es chan) }
{
    push_field(out, form, b"outputs", stats.outputs(chan))?;
    push_field(out, form, b"inputs", stats.inputs(chan))
}

/// Adds how many packets were put whole on a way, and how many of them are acknowledges.
#[tactic(auto, using(std::proofs::Common::append_assoc))]
fn push_whole(out: &mut Vec<u8>, form: Form, way: WayFigures) -> Result<(), Memory>
    ensures { OnOk result (out.new.items ≡ out.old.items ++ whole_text form way) }
{
    push_field(out, form, b"packets", way.packets)?;
    push_field(out, form, b"acks", way.acks)
}

/// Adds how many packets were put whole on the way of this number, and how many of them are acknowledges, if that is known.
pub(crate) fn push_packets(
    out: &mut Vec<u8>,
    form: Form,
    ways: &[WayFigures],
    n: usize,
) -> Result<(), Memory>
    ensures { OnOk result (out.new.items ≡ out.old.items ++ packets_text form ways.now n) }
{
    match ways.get(n) {
        Some(way) => push_whole(out, form, *way),
        None => Ok(()),
    }
}

/// Adds the other figures of a way.
#[tactic(auto, using(std::proofs::Common::append_assoc))]
fn push_way_figures(out: &mut Vec<u8>, form: Form, way: WayFigures) -> Result<(), Memory>
    ensures { OnOk result (out.new.items ≡ out.old.items ++ way_figures_text form way) }
{
    push_field(out, form, b"most", way.most)?;
    push_field(out, form, b"buffered", way.buffered)?;
    push_field(out, form, b"waited", way.waited)
}

/// Adds the other figures of the way of this number, if they are known.
pub(crate) fn push_figures(
    out: &mut Vec<u8>,
    form: Form,
    ways: &[WayFigures],
    n: usize,
) -> Result<(), Memory>
    ensures { OnOk result (out.new.items ≡ out.old.items ++ figures_text form ways.now n) }
{
    match ways.get(n) {
        Some(way) => push_way_figures(out, form, *way),
        None => Ok(()),
    }
}

/// Adds after how many events of the run an output on a channel was not finished, if that is known.
pub(crate) fn push_unfinished(
    out: &mut Vec<u8>,
    form: Form,
    unfinished: &[u64],
    chan: usize,
) -> Result<(), Memory>
    ensures { OnOk result (out.new.items ≡
        out.old.items ++ unfinished_text form unfinished.now chan) }
{
    match unfinished.get(chan) {
        Some(count) => push_field(out, form, b"unfinished", *count),
        None => Ok(()),
    }
}

/// How many bytes messages have together.
fn bytes_of(messages: Messages<'_>) -> u64
    ensures { result ≡ bytes_in (listed messages.entry) }
{
    let mut bytes = 0u64;
    for message in messages.iter() {
        bytes = bytes.saturating_add(message.len() as u64);
    }
    bytes
}

/// Adds how many messages were taken, and their bytes.
#[tactic(auto, using(std::proofs::Common::append_assoc))]
pub(crate) fn push_taken(
    out: &mut Vec<u8>,
    form: Form,
    messages: Messages<'_>,
) -> Result<(), Memory>
    ensures { OnOk result
        (out.new.items ≡ out.old.items ++ taken_text form (listed messages.entry)) }
{
    push_field(out, form, b"messages", messages.len() as u64)?;
    push_field(out, form, b"bytes", bytes_of(messages))
}
