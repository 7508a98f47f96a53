//! By which links of which actors tokens come, as bits.
ghost use Rattle.std.specs.Prelude.{◌≡◌, ◌<◌, ℕ, length, get_or, replicate};
ghost use Rattle.vc_core.specs.Private.Fronts.{Marked};

use std::marker::Model;
use vc_actor::without;

/// For each actor a bit for each link by which a token comes.
#[derive(Drop)]
pub(crate) struct Fronts {
    // by the actor's number, of which there are so many
    links: [u32; 256],
}

impl Model for Fronts {
    ghost use Rattle.std.specs.Prelude.{ℕ, List};

    ghost Value = { List ℕ };

    ghost view = { λ x. x.links };
}

// No link of any actor.
fn no_links() -> [u32; 256]
    ensures { result ≡ replicate 256 0 }
{
    [0; 256]
}

impl Fronts {
    /// No token comes to any actor.
    pub(crate) fn new() -> Fronts
        ensures count { length result ≡ 256 }
        ensures none { (k : ℕ) → get_or result k 0 ≡ 0 }
    {
        Fronts { links: no_links() }
    }

    /// A bit for each link of an actor by which a token comes.
    pub(crate) fn links(&self, actor: u8) -> u32
        ensures { result ≡ get_or self.now actor 0 }
    {
        self.links[usize::from(actor)]
    }

    /// From now on a token comes by a link of an actor.
    pub(crate) fn set(&mut self, actor: u16, link: u8)
        requires actor { actor < length self.old }
        requires link { link < 32 }
        ensures { Marked self.old actor link 1 self.new }
    {
        self.links[usize::from(actor)] |= 1u32 << link;
    }

    /// No token comes by a link of an actor any more.
    pub(crate) fn clear(&mut self, actor: u8, link: u8)
        requires actor { actor < length self.old }
        requires link { link < 32 }
        ensures { Marked self.old actor link 0 self.new }
    {
        let left = without(self.links[usize::from(actor)], link);
        self.links[usize::from(actor)] = left;
    }
}
