//! The ways of a network: two for each wire.
ghost use Rattle.std.specs.Prelude.{◌≡◌, ◌↔◌, ◌+◌, ◌*◌, ◌<◌, ℕ, IfOk, IfSome, Some, length};
ghost use Rattle.std.specs.Int.{bit_at};
ghost use Rattle.vc_core.specs.Wiring.{out_at, in_at, AreWaysAt, IsWired};
ghost use Rattle.vc_plan.specs.Accepted.{IsAccepted};

use crate::ends::{End, ends_of, far_of, place_at};
use crate::outgoing_ways::ways_out;
use crate::rooms::rooms_of;
use std::alloc::Global;
use std::marker::Model;
use vc_packets::Memory;
use vc_plan::Plan;

/// The links of an actor, of which a node has four.
pub(crate) const LINKS: usize = 32;

/// Which way goes out by each link of each actor. Wire `i` has the way `2 i` from its port one to its port two, and `2 i + 1` back;
/// so the way that comes in by a link is the other one of its wire.
#[derive(Drop)]
pub(crate) struct Wiring {
    out: Vec<Option<u16>>,
    // for each actor a bit for each link by which a way goes out
    rooms: [u32; 256],
    // the port to which the way leads that goes out by each link, 32 places an actor
    far: Vec<End>,
}

impl Model for Wiring {
    ghost use Rattle.std.specs.Prelude.{ℕ, List, Option};
    ghost use Rattle.vc_core.specs.Private.Wiring.{AreFar, AreRooms};

    ghost Value = { List (Option ℕ) };

    ghost view = { λ x. x.out.items };

    ghost invariant = { λ x.
        AreRooms x.out.items x.rooms × AreFar x.out.items x.far.items };
}

impl Wiring {
    /// The ways of an accepted plan, at its nodes and then its switches.
    pub(crate) fn new(alloc: Global, plan: &Plan) -> Result<Wiring, Memory>
        requires { IsAccepted plan.now }
        ensures tells { IfOk result (λ wiring. AreWaysAt plan.now wiring) }
        ensures long { IfOk result
            (λ wiring. length wiring ≡ (length plan.now.nodes + length plan.now.switches) * 32) }
        ensures one { IfOk result
            (λ wiring.
            (k l j i way : ℕ) →
            in_at wiring k l ≡ Some way →
            in_at wiring j i ≡ Some way →
            (j ≡ k) × (i ≡ l)) }
        ensures into { IfOk result
            (λ wiring.
            (way : ℕ) →
            way < 2 * length plan.now.wires →
            (k : ℕ) × (l : ℕ) × (in_at wiring k l ≡ Some way)) }
    {
        let out = ways_out(alloc, plan)?;
        let rooms = rooms_of(out.as_slice());
        let ends = ends_of(alloc, plan)?;
        let far = far_of(alloc, out.as_slice(), ends.as_slice())?;
        Ok(Wiring { out, rooms, far })
    }

    /// A bit for each link of an actor by which a way goes out.
    pub(crate) fn room(&self, actor: u8) -> u32
        ensures { (link : ℕ) → link < 32 → (bit_at result link ≡ 1) ↔ IsWired self.now actor link }
    {
        self.rooms[usize::from(actor)]
    }

    /// The port to which the way leads that goes out by an actor's link, which is on a wire.
    pub(crate) fn far(&self, actor: u8, link: u8) -> End
        requires { IsWired self.now actor link }
        ensures { (way : ℕ) →
            out_at self.now actor link ≡ Some way →
            in_at self.now result.actor result.link ≡ Some way }
    {
        self.far[place_at(u16::from(actor), link)]
    }

    /// The way that goes out by a link of an actor, if the link is on a wire.
    pub(crate) fn outgoing(&self, actor: u8, link: u8) -> Option<usize>
        ensures way { result ≡ out_at self.now actor link }
        ensures small { IfSome result (λ way. way < 65536) }
    {
        let link = usize::from(link);
        if link >= LINKS {
            return None;
        }
        match self.out.get(usize::from(actor) * LINKS + link).copied() {
            Some(Some(way)) => Some(usize::from(way)),
            Some(None) | None => None,
        }
    }
}
