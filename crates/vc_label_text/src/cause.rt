//! What is wrong with a network that is to be labelled.
ghost use Rattle.std.specs.Prelude.{◌≡◌, ◌++◌, IfOk, OnOk};
ghost use Rattle.vc_label_text.specs.CauseText.{cause_text as text_of_cause, cause_words, end_text as text_of_end, name_text, three_text};

use std::alloc::Global;
use vc_packets::Memory;
use vc_plan::Name;

/// An end of a channel.
#[derive(Clone, Copy, Debug, PartialEq, Eq, Drop)]
pub enum ChannelEnd {
    /// The process that outputs.
    Outputs,
    /// The process that inputs.
    Inputs,
}

/// What is wrong with a network that is to be labelled, besides what `check` finds.
#[derive(Debug, Drop)]
pub enum LabelCause {
    /// A node or a switch has more wires than links.
    Links {
        /// The node or switch.
        place: Name,
    },
    /// No wire joins the two nodes of a channel, and no switches do.
    NoPath {
        /// The channel.
        channel: Name,
        /// The node that outputs.
        from: Name,
        /// The node that inputs.
        to: Name,
    },
    /// The file leaves out an end of a channel, and no process has it.
    NoEnd {
        /// The channel.
        channel: Name,
        /// The end.
        end: ChannelEnd,
    },
    /// The file leaves out an end of a channel, and processes of two nodes have it.
    TwoEnds {
        /// The channel.
        channel: Name,
        /// One of the nodes.
        one: Name,
        /// The other one.
        other: Name,
    },
    /// The file leaves out the kind of a channel, and no process shows it.
    NoKind {
        /// The channel.
        channel: Name,
    },
    /// What was made has a circle of dependencies, or is no labelling of the file.
    Unlabelled,
}

/// A space and a name.
fn push_name(out: &mut Vec<u8>, name: &Name) -> Result<(), Memory>
    ensures { OnOk result (out.new.items ≡ out.old.items ++ name_text name.now) }
{
    out.extend_from_slice(b" ")?;
    out.extend_from_slice(name.as_slice())?;
    Ok(())
}

/// A channel and two nodes.
#[tactic(auto, using(std::proofs::Common::append_assoc))]
fn push_three(out: &mut Vec<u8>, channel: &Name, one: &Name, other: &Name) -> Result<(), Memory>
    ensures { OnOk result (out.new.items
        ≡ out.old.items ++ three_text channel.now one.now other.now) }
{
    push_name(out, channel)?;
    push_name(out, one)?;
    push_name(out, other)
}

/// The word of an end.
fn end_text(end: ChannelEnd) -> &'static [u8]
    ensures { result.now ≡ text_of_end end }
{
    match end {
        ChannelEnd::Outputs => b" outputs",
        ChannelEnd::Inputs => b" inputs",
    }
}

/// The words of what is wrong.
#[tactic(auto, using(std::proofs::Common::append_assoc))]
fn push_cause(out: &mut Vec<u8>, cause: &LabelCause) -> Result<(), Memory>
    ensures { OnOk result (out.new.items ≡ out.old.items ++ cause_words cause.now) }
{
    match cause {
        LabelCause::Links { place } => {
            out.extend_from_slice(b"refused 30 Links")?;
            push_name(out, place)
        }
        LabelCause::NoPath { channel, from, to } => {
            out.extend_from_slice(b"refused 31 NoPath")?;
            push_three(out, channel, from, to)
        }
        LabelCause::NoEnd { channel, end } => {
            out.extend_from_slice(b"refused 32 NoEnd")?;
            push_name(out, channel)?;
            out.extend_from_slice(end_text(*end))?;
            Ok(())
        }
        LabelCause::TwoEnds {
            channel,
            one,
            other,
        } => {
            out.extend_from_slice(b"refused 33 TwoEnds")?;
            push_three(out, channel, one, other)
        }
        LabelCause::NoKind { channel } => {
            out.extend_from_slice(b"refused 34 NoKind")?;
            push_name(out, channel)
        }
        LabelCause::Unlabelled => {
            out.extend_from_slice(b"refused 35 Unlabelled")?;
            Ok(())
        }
    }
}

/// The line that says why a network can't be labelled. The call fails only when out of memory.
pub fn cause_text(alloc: Global, cause: &LabelCause) -> Result<Vec<u8>, Memory>
    ensures { IfOk result (λ text. text.items ≡ text_of_cause cause.now) }
{
    let mut out = Vec::new(alloc);
    push_cause(&mut out, cause)?;
    out.push(10)?;
    Ok(out)
}
