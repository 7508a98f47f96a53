//! The channels of a network, with what its processes show of them.
use crate::cause::{ChannelEnd, LabelCause};
use crate::unmade::Unmade;
use crate::uses::{Nodes, Used, Uses};
use sqlite_items::Items;
use std::alloc::Global;
use std::collections::BTreeSet;
use vc_plan::Name;
use vc_process::ValueKind;
use vc_reader::{BareEnds, BareNetwork};

/// A channel, with its kind and the nodes between which it goes.
#[derive(Drop)]
pub(crate) struct WholeChannel {
    pub name: Name,
    pub kind: ValueKind,
    pub from: u8,
    pub to: u8,
}

/// What a file says of a channel, if it does, and what processes show.
#[derive(Drop)]
struct Known<'a> {
    bare: &'a BareNetwork,
    name: &'a [u8],
    used: Option<&'a Used>,
}

impl Known<'_> {
    fn name(&self, alloc: Global) -> Result<Name, Unmade> {
        Ok(Items::from_slice(alloc, self.name)?)
    }

    /// The node at an end: the one that the file gives, or the one whose process is there.
    fn end(&self, alloc: Global, given: Option<u8>, end: ChannelEnd) -> Result<u8, Unmade> {
        if let Some(node) = given {
            return Ok(node);
        }
        match self.nodes(end) {
            Nodes {
                first: Some(one),
                other: Some(other),
            } => Err(Unmade::Network(LabelCause::TwoEnds {
                channel: self.name(alloc)?,
                one: node_name(alloc, self.bare, one)?,
                other: node_name(alloc, self.bare, other)?,
            })),
            Nodes {
                first: Some(node),
                ..
            } => Ok(node),
            _ => Err(Unmade::Network(LabelCause::NoEnd {
                channel: self.name(alloc)?,
                end,
            })),
        }
    }

    fn nodes(&self, end: ChannelEnd) -> Nodes {
        match (self.used, end) {
            (Some(used), ChannelEnd::Outputs) => used.outputs,
            (Some(used), ChannelEnd::Inputs) => used.inputs,
            (None, _) => Nodes {
                first: None,
                other: None,
            },
        }
    }

    fn kind(&self, alloc: Global, given: Option<ValueKind>) -> Result<ValueKind, Unmade> {
        let shown = match self.used {
            Some(used) => used.kind,
            None => None,
        };
        match given.or(shown) {
            Some(kind) => Ok(kind),
            None => Err(Unmade::Network(LabelCause::NoKind {
                channel: self.name(alloc)?,
            })),
        }
    }

    fn whole(
        &self,
        alloc: Global,
        ends: BareEnds,
        kind: Option<ValueKind>,
    ) -> Result<WholeChannel, Unmade> {
        let (from, to) = match ends {
            BareEnds::Within(node) => (Some(node), Some(node)),
            BareEnds::Between { from, to } => (from, to),
        };
        Ok(WholeChannel {
            name: self.name(alloc)?,
            from: self.end(alloc, from, ChannelEnd::Outputs)?,
            to: self.end(alloc, to, ChannelEnd::Inputs)?,
            kind: self.kind(alloc, kind)?,
        })
    }
}

/// The name of a node of this number; no bytes if there is none.
pub(crate) fn node_name(alloc: Global, bare: &BareNetwork, node: u8) -> Result<Name, Unmade> {
    Ok(match bare.nodes.get(usize::from(node)) {
        Some(name) => Items::from_slice(alloc, name.as_slice())?,
        None => Items::new(alloc),
    })
}

/// All channels: those that the file lists, and then those that processes use besides.
pub(crate) fn whole_channels(
    alloc: Global,
    bare: &BareNetwork,
    uses: &Uses,
) -> Result<Vec<WholeChannel>, Unmade> {
    let mut channels = Vec::new(alloc);
    let mut listed = BTreeSet::new(alloc);
    for channel in bare.channels.as_slice() {
        let name = channel.name.as_slice();
        let known = Known {
            bare,
            name,
            used: uses.find(name),
        };
        channels.push(known.whole(alloc, channel.ends, channel.kind)?)?;
        listed.insert(Vec::from_slice(alloc, name)?)?;
    }
    for used in uses.channels.iter() {
        if !listed.contains(used.name.as_slice()) {
            channels.push(used_channel(alloc, bare, used)?)?;
        }
    }
    Ok(channels)
}

/// A channel that the file does not list.
fn used_channel(alloc: Global, bare: &BareNetwork, used: &Used) -> Result<WholeChannel, Unmade> {
    let known = Known {
        bare,
        name: used.name.as_slice(),
        used: Some(used),
    };
    let ends = BareEnds::Between {
        from: None,
        to: None,
    };
    known.whole(alloc, ends, None)
}
