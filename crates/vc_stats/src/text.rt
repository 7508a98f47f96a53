//! What is written of a run, with its counts or as JSON.
ghost use Rattle.std.specs.Prelude.{List, IfOk, OnErr, OnOk};
ghost use Rattle.std.specs.Io.KnownBytes.{Appends};
ghost use Rattle.vc_core.specs.Replay.{Reached};
ghost use Rattle.vc_core.specs.State.{IsNetworkOf, shown, state_of};
ghost use Rattle.vc_core.specs.declared.event.Event.{Event};
ghost use Rattle.vc_stats.specs.Counts.{AreCounts};
ghost use Rattle.vc_stats.specs.Texts.{IsCountedJson, IsCountedLines, IsCountedText, IsTrafficJson};
ghost use Rattle.vc_stats.specs.Monitor.{figures};
ghost use Rattle.vc_stats.specs.Private.Told.{told_text};
ghost use Rattle.vc_stats.specs.declared.form.Form.TheVariants.{Json, Lines};
ghost use Rattle.vc_text.specs.Streams.{AppendsFront, Writes};

use crate::form::Form;
use crate::sections::push_stats;
use crate::state_figures::StateFigures;
use crate::stats::Stats;
use crate::traffic_json::put_traffic;
use std::alloc::Global;
use std::io::Write;
use vc_core::{Close, Network};
use vc_packets::Memory;
use vc_plan::Plan;
use vc_text::{Piece, RunFault, Tail, WriteFailed, put_last, views};

/// The traffic of a run, with who waits for what or without, and then the lines of its counts.
fn stats_lines<'a>(
    alloc: Global,
    plan: &Plan,
    network: &'a Network,
    close: Close,
    stats: &Stats,
    states: &StateFigures,
    is_why: bool,
) -> Result<Tail<'a>, Memory>
    requires { (events : List Event) × Reached plan.now events (state_of network.now) }
    ensures { (es : List Event) → AreCounts stats.now es → IfOk result (λ tail.
        IsCountedLines is_why (figures states.now) plan.now es
        (shown (state_of network.now)) close (told_text Lines tail)) }
{
    let mut tail = Tail::new(alloc, plan, network, close, is_why)?;
    let shown = &mut tail;
    let views = shown.views.as_slice();
    push_stats(&mut shown.after, Form::Lines, plan, stats, states, views)?;
    Ok(tail)
}

/// The traffic of a run and its counts, as JSON.
fn stats_json<'a>(
    alloc: Global,
    plan: &Plan,
    network: &'a Network,
    close: Close,
    stats: &Stats,
    states: &StateFigures,
) -> Result<Tail<'a>, Memory>
    requires { IsNetworkOf plan.now (state_of network.now) }
    ensures { (es : List Event) → AreCounts stats.now es → IfOk result (λ tail.
        IsCountedJson (figures states.now) plan.now es
        (shown (state_of network.now)) close (told_text Json tail)) }
{
    let views = views(alloc, network)?;
    let mut after = Vec::new(alloc);
    push_stats(
        &mut after,
        Form::Json,
        plan,
        stats,
        states,
        views.as_slice(),
    )?;
    after.extend_from_slice(b"}\n")?;
    Ok(Tail {
        views,
        close,
        after,
    })
}

/// The traffic of a run and its counts: as lines, with who waits for what after the traffic or without, or as JSON. It fails only when out of
/// memory alone.
pub(crate) fn stats_tail<'a>(
    alloc: Global,
    plan: &Plan,
    network: &'a Network,
    close: Close,
    stats: &Stats,
    states: &StateFigures,
    form: Form,
    is_why: bool,
) -> Result<Tail<'a>, Memory>
    requires { (events : List Event) × Reached plan.now events (state_of network.now) }
    ensures { (es : List Event) → AreCounts stats.now es → IfOk result (λ tail.
        IsCountedText form is_why (figures states.now) plan.now es
        (shown (state_of network.now)) close (told_text form tail)) }
{
    match form {
        Form::Lines => stats_lines(alloc, plan, network, close, stats, states, is_why),
        Form::Json => stats_json(alloc, plan, network, close, stats, states),
    }
}

/// The traffic of a run, as JSON. It fails only when out of memory.
#[tactic(auto, unfolding(crate::specs::Texts::IsTrafficJson))]
pub(crate) fn traffic_tail(
    alloc: Global,
    network: &Network,
    close: Close,
) -> Result<Tail<'_>, Memory>
    ensures { (p : Plan) (es : List Event) → IsNetworkOf p (state_of network.now) → IfOk result
        (λ tail. IsTrafficJson p es (shown (state_of network.now)) close (told_text Json tail)) }
{
    let views = views(alloc, network)?;
    let mut after = Vec::new(alloc);
    after.extend_from_slice(b"}\n")?;
    Ok(Tail {
        views,
        close,
        after,
    })
}

// The JSON of a tail, and then nothing is left in the buffer.
fn pass_json<W: Write>(tail: &Tail<'_>, writer: &mut W) -> Result<(), WriteFailed>
    ensures ok { OnOk result (Appends (W.contents writer.old) (W.contents writer.new)
        (told_text Json tail.now)) }
    ensures err { OnErr result (AppendsFront (W.contents writer.old) (W.contents writer.new)
        (told_text Json tail.now)) }
{
    let mut piece = Piece::new();
    put_traffic(&mut piece, writer, tail.views.as_slice(), tail.close)?;
    put_last(&mut piece, writer, tail.after.as_slice())
}

fn write_json<W: Write>(tail: &Tail<'_>, writer: &mut W) -> Result<(), RunFault>
    ensures { Writes (W.contents writer.old) (W.contents writer.new)
        (told_text Json tail.now) result }
{
    match pass_json(tail, writer) {
        Ok(()) => Ok(()),
        Err(WriteFailed) => Err(RunFault::Write),
    }
}

/// Writes what a tail shows: as lines or as JSON, through a buffer of 4,096 bytes.
pub(crate) fn write_told<W: Write>(
    form: Form,
    tail: &Tail<'_>,
    writer: &mut W,
) -> Result<(), RunFault>
    ensures { Writes (W.contents writer.old) (W.contents writer.new)
        (told_text form tail.now) result }
{
    match form {
        Form::Lines => tail.write(writer),
        Form::Json => write_json(tail, writer),
    }
}
