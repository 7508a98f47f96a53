//! Where to look first for the outputs or inputs of a node.
ghost use Rattle.std.specs.Prelude.{◌≡◌, ◌%◌, replicate, slice_index, slice_set};
ghost use Rattle.vc_vcp.specs.Private.Hints.{AreHinted};

use crate::input::Input;
use crate::output::Output;

/// How many places a table of hints has.
const PLACES: usize = 256;

/// The places of outputs or inputs by their channels and by their blocks. Names that agree modulo 256 share a hint, which is then the
/// place of the last of them: a hint says where to look first, and no more.
#[derive(Clone, Copy, Drop)]
pub(crate) struct Hints {
    chans: [usize; 256],
    blocks: [usize; 256],
}

impl Hints {
    /// The first place for every name.
    fn new() -> Hints
        ensures chans { result.chans ≡ replicate 256 0 }
        ensures blocks { result.blocks ≡ replicate 256 0 }
    {
        Hints {
            chans: [0; 256],
            blocks: [0; 256],
        }
    }

    /// Notes the place of what has this channel and this block.
    fn note(&mut self, chan: u16, block: u16, place: usize)
        ensures chans { self.new.chans ≡ slice_set self.old.chans (chan % 256) place }
        ensures blocks { self.new.blocks ≡ slice_set self.old.blocks (block % 256) place }
    {
        self.chans[usize::from(chan) % PLACES] = place;
        self.blocks[usize::from(block) % PLACES] = place;
    }

    /// Where each of these outputs is.
    pub(crate) fn of_outputs(outputs: &[Output]) -> Hints
        ensures chans { AreHinted (λ x. x.chan) outputs.now result.chans }
        ensures blocks { AreHinted (λ x. x.block) outputs.now result.blocks }
    {
        let mut hints = Hints::new();
        for (i, output) in outputs.iter().enumerate() {
            hints.note(output.chan, output.block, i);
        }
        hints
    }

    /// Where each of these inputs is.
    pub(crate) fn of_inputs(inputs: &[Input]) -> Hints
        ensures chans { AreHinted (λ x. x.chan) inputs.now result.chans }
        ensures blocks { AreHinted (λ x. x.block) inputs.now result.blocks }
    {
        let mut hints = Hints::new();
        for (i, input) in inputs.iter().enumerate() {
            hints.note(input.chan, input.block, i);
        }
        hints
    }

    /// Where to look first for what is on a channel.
    #[inline(always)]
    pub(crate) fn on_chan(&self, chan: u16) -> usize
        ensures { result ≡ slice_index self.now.chans (chan % 256) }
    {
        self.chans[usize::from(chan) % PLACES]
    }

    /// Where to look first for what has a block.
    #[inline(always)]
    pub(crate) fn of_block(&self, block: u16) -> usize
        ensures { result ≡ slice_index self.now.blocks (block % 256) }
    {
        self.blocks[usize::from(block) % PLACES]
    }
}
