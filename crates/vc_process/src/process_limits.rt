//! What is asked of a whole process.
ghost use Rattle.std.specs.Prelude.{◌≡◌, IfOk};
ghost use Rattle.vc_process.specs.ChannelUses.{channel_uses as uses_of};
ghost use Rattle.vc_process.specs.Numbering.{written};
ghost use Rattle.vc_process.specs.ProcessLimits.{depth_within as is_depth_within, exps_within, in_length, names_fit};

use crate::asked::Asked;
use crate::channel_use::ChannelUse;
use crate::depth::depth_within;
use crate::process::Process;
use crate::uses::push_uses;
use crate::value_kind::ValueKind;
use sqlite_items::Items;
use std::alloc::Global;
use vc_packets::Memory;

impl Process {
    /// Whether it has at most this depth; a process without parts has depth 1.
    pub fn is_within(&self, depth: u32) -> bool
        ensures { result ≡ is_depth_within (written self.now) depth }
    {
        depth_within(self, depth)
    }

    /// Whether each of its expressions and conditions has at most this depth; a literal, a variable, a size, TRUE and FALSE have
    /// depth 1.
    pub fn expressions_are_within(&self, depth: u32) -> bool
        ensures { result ≡ exps_within (written self.now) depth }
    {
        Asked::Expressions { depth }.everywhere(self, &[])
    }

    /// Whether no literal and no fill in it is over 65,535 bytes.
    pub fn is_in_length(&self) -> bool
        ensures { result ≡ in_length (written self.now) }
    {
        Asked::Length.everywhere(self, &[])
    }

    /// Whether its channels are among so many, and its variables are there and of the kinds that it wants.
    pub fn fits(&self, kinds: &[ValueKind], channels: usize) -> bool
        ensures { result ≡ names_fit (written self.now) kinds.now channels }
    {
        Asked::Names { channels }.everywhere(self, kinds)
    }

    /// Its uses of channels, in order of site, in a node with variables of these kinds.
    pub fn channel_uses(
        &self,
        alloc: Global,
        kinds: &[ValueKind],
    ) -> Result<Items<ChannelUse>, Memory>
        ensures { IfOk result (λ uses. uses ≡ uses_of kinds.now (written self.now)) }
    {
        let mut uses = Items::new(alloc);
        push_uses(&mut uses, self, kinds)?;
        Ok(uses)
    }
}
