//! A plain sentence for a network that can't be labelled, and what to change.
ghost use Rattle.std.specs.Prelude.{◌≡◌, ◌++◌, OnOk};
ghost use Rattle.vc_explain.specs.Causes.{advice as advice_on, cause_sentence, named, opening as opening_of, two_names};

use vc_label_text::{ChannelEnd, LabelCause};
use vc_packets::Memory;
use vc_plan::Name;

/// How the sentence begins.
fn opening(cause: &LabelCause) -> &'static str
    ensures { result.now ≡ opening_of cause.now }
{
    match cause {
        LabelCause::Links { .. } => "More wires lead to ",
        LabelCause::NoPath { .. } => "The channel ",
        LabelCause::NoEnd {
            channel: _,
            end: ChannelEnd::Outputs,
        } => "No process outputs on the channel ",
        LabelCause::NoEnd {
            channel: _,
            end: ChannelEnd::Inputs,
        } => "No process inputs on the channel ",
        LabelCause::TwoEnds { .. } => "The nodes ",
        LabelCause::NoKind { .. } => "No process shows of which kind the channel ",
        LabelCause::Unlabelled => "What was made is no labelling of the network",
    }
}

/// Two names, by a word between them.
#[tactic(auto, using(std::proofs::Common::append_assoc))]
fn push_two_names(out: &mut Vec<u8>, one: &Name, other: &Name) -> Result<(), Memory>
    ensures { OnOk result (out.new.items ≡ out.old.items ++ two_names one.now other.now) }
{
    out.extend_from_slice(one.as_slice())?;
    out.extend_from_slice(b" and ")?;
    out.extend_from_slice(other.as_slice())?;
    Ok(())
}

/// What the sentence names.
#[tactic(auto, using(std::proofs::Common::append_assoc))]
fn push_named(out: &mut Vec<u8>, cause: &LabelCause) -> Result<(), Memory>
    ensures { OnOk result (out.new.items ≡ out.old.items ++ named cause.now) }
{
    match cause {
        LabelCause::Links { place: name }
        | LabelCause::NoEnd {
            channel: name,
            end: _,
        }
        | LabelCause::NoKind { channel: name } => out.extend_from_slice(name.as_slice())?,
        LabelCause::NoPath { channel, from, to } => {
            out.extend_from_slice(channel.as_slice())?;
            out.extend_from_slice(b" needs a way between the nodes ")?;
            push_two_names(out, from, to)?;
        }
        LabelCause::TwoEnds {
            channel,
            one,
            other,
        } => {
            push_two_names(out, one, other)?;
            out.extend_from_slice(b" both output on the channel ")?;
            out.extend_from_slice(channel.as_slice())?;
        }
        LabelCause::Unlabelled => {}
    }
    Ok(())
}

/// How the sentence goes on, and what to change.
fn advice(cause: &LabelCause) -> &'static str
    ensures { result.now ≡ advice_on cause.now }
{
    match cause {
        LabelCause::Links { .. } =>
            " than it has links: a node has 4, and a switch has 32. Leave out wires, or lead them to another switch.",
        LabelCause::NoPath { .. } =>
            ", but no wire joins them, and no switches do. Add a wire between the two, or wires that join their switches.",
        LabelCause::NoEnd {
            channel: _,
            end: ChannelEnd::Outputs,
        } =>
            ", and the file gives no `from` for it. Output on it in the process of a node, correct its spelling, or write `from` with the name of a node.",
        LabelCause::NoEnd {
            channel: _,
            end: ChannelEnd::Inputs,
        } =>
            ", and the file gives no `to` for it. Input on it in the process of a node, correct its spelling, or write `to` with the name of a node.",
        LabelCause::TwoEnds { .. } =>
            ", or both input. A channel has one node that outputs, and one that inputs. Use another channel in one of the two.",
        LabelCause::NoKind { .. } =>
            " is. Write its `kind`, `int` or `bytes`, or leave the channel out.",
        LabelCause::Unlabelled =>
            ", or has a circle of dependencies. Write the virtual links and the tables into the file.",
    }
}

/// The sentence for a network that can't be labelled.
#[tactic(auto, using(std::proofs::Common::append_assoc))]
pub(crate) fn push_cause_sentence(out: &mut Vec<u8>, cause: &LabelCause) -> Result<(), Memory>
    ensures { OnOk result (out.new.items ≡ out.old.items ++ cause_sentence cause.now) }
{
    out.extend_from_slice(opening(cause).as_bytes())?;
    push_named(out, cause)?;
    out.extend_from_slice(advice(cause).as_bytes())?;
    Ok(())
}
