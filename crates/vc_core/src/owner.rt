//! Whose packets are: each is its channel's to whose end its headers lead.
//!
//! A packet is followed through the tables of the switches from where it is, on one of the paths that its headers let it take:
//! by the first link of each group, after the least header of each range. On an accepted plan all paths of a channel's packet come
//! to the channel's end, so this one shows whose it is.
ghost use Rattle.std.specs.Prelude.{◌≡◌, ◌<◌, ◌≤◌, ◌+◌, ◌*◌, ◌++◌, ◌↔◌, [], ℕ, List, length, drop, slice_get, Some, None, IsTrue, IfSome, MatchOption};
ghost use Rattle.std.specs.List.{Contains};
ghost use Rattle.std.specs.Option.{option_copied};
ghost use Rattle.vc_accepted.specs.NetworkOf.{network_of};
ghost use Rattle.vc_core.specs.Channels.{ends_at};
ghost use Rattle.vc_actor.specs.Private.Parts.{switch_at};
ghost use Rattle.vc_core.specs.Private.Targets.{ComesTo, Has, IsOwned, IsTargetAt};
ghost use Rattle.vc_core.specs.State.{state_of, IsNetworkOf};
ghost use Rattle.vc_core.specs.Wiring.{out_at};
ghost use Rattle.vc_machine.specs.Machine.{BodyLeaves};
ghost use Rattle.vc_machine.specs.Paths.{AtSwitch, End};
ghost use Rattle.vc_machine.specs.Places.{BelongsTo, Inside, IsOf, OnWire};
ghost use Rattle.vc_network.specs.Plan.{far, home, net_of, switch_plan, ways};
ghost use Rattle.vc_packets.specs.declared.packet.Packet.{Packet as Made};
ghost use Rattle.vc_packets.specs.Headers.{spelled};
ghost use Rattle.vc_plan.specs.declared.plan.Plan.{Plan};
ghost use Rattle.vc_switch.specs.Forward.{IsDrawn, behind};

use crate::channels::Ends;
use crate::network::Network;
use crate::search::port_of;
use arrayvec::ArrayVec;
use sqlite_items::at;
use vc_packets::{Mark, Packet};
use vc_plan::Spot;
use vc_switch::Switch;

/// The bytes of the longest packet: six headers, and 32 bytes of data.
const LONGEST: usize = 44;

/// After so many hops each packet of an accepted plan is at its end.
const HOPS: u8 = 32;

/// A packet's bytes on its path, after at most one random header a hop.
type Headed = ArrayVec<u8, 108>;

impl Network {
    /// Whether one of these packets, which go by a way, is of the channel with these ends.
    pub(crate) fn has_its(&self, way: usize, packets: &[Packet], ends: &Ends) -> bool
        ensures { (p : Plan) (c : ℕ) →
            IsNetworkOf p (state_of self.now) →
            way < ways (network_of p) →
            ends_at (network_of p) (home (network_of p) c) ≡ Some ends.now →
            ((q : Made) → Contains packets.now q → IsOwned (network_of p) (OnWire way, q)) →
            IsTrue result ↔ Has (λ q. IsOf (net_of (network_of p)) way None q c) packets.now }
    {
        for packet in packets {
            if self.is_its(way, packet.body.as_slice(), packet.mark, ends) {
                return true;
            }
        }
        false
    }

    /// Whether a packet with this body and mark, which goes by a way, is of the channel with these ends.
    pub(crate) fn is_its(&self, way: usize, body: &[u8], mark: Mark, ends: &Ends) -> bool
        ensures { (p : Plan) (c : ℕ) →
            IsNetworkOf p (state_of self.now) →
            way < ways (network_of p) →
            ends_at (network_of p) (home (network_of p) c) ≡ Some ends.now →
            IsOwned (network_of p) (OnWire way, record { body = body.now; mark = mark }) →
            IsTrue result ↔
            IsOf (net_of (network_of p)) way None (record { body = body.now; mark = mark }) c }
    {
        body.len() <= LONGEST && self.leads(way, body, mark, ends, HOPS)
    }

    /// Whether a packet with this body and mark, which is whole at an input of a switch, is of the channel with these ends.
    pub(crate) fn is_its_inside(&self, switch: u8, body: &[u8], mark: Mark, ends: &Ends) -> bool
        ensures { (p : Plan) (c w link : ℕ) →
            IsNetworkOf p (state_of self.now) →
            ends_at (network_of p) (home (network_of p) c) ≡ Some ends.now →
            far (network_of p) w ≡ AtSwitch switch link →
            IsOwned (network_of p) (Inside w, record { body = body.now; mark = mark }) →
            IsTrue result ↔
            BelongsTo (net_of (network_of p)) c
            (Inside w, record { body = body.now; mark = mark }) }
    {
        if body.len() > LONGEST {
            return false;
        }
        match self.way_on(switch, body) {
            Some((way, from)) => {
                let (_, left) = body.split_at(from);
                self.leads(way, left, mark, ends, HOPS - 1)
            }
            None => false,
        }
    }

    // Whether a body on a way, with this mark behind it, is sought at the end to which its headers lead it in so many hops.
    fn leads(&self, way: usize, body: &[u8], mark: Mark, ends: &Ends, hops: u8) -> bool
        requires { length body.now + 2 * hops ≤ 108 }
        ensures { (p : Plan) (e : End) (load : List ℕ) →
            IsNetworkOf p (state_of self.now) →
            way < ways (network_of p) →
            ComesTo (net_of (network_of p)) hops way body.now e load →
            IsTrue result ↔ IsTargetAt ends.now e load mark }
    {
        let Some(wire) = at(self.wires.as_slice(), way / 2) else {
            return false;
        };
        let from_one = way % 2 == 0;
        let far = port_of(wire, !from_one);
        match far.spot {
            Spot::Node(node) => ends.target_at(node).is(body, mark),
            Spot::Switch(switch) => {
                if hops == 0 {
                    return false;
                }
                let headed = headed(self.least_header(switch, far.link), body);
                match self.way_on(switch, headed.as_slice()) {
                    Some((way, from)) => {
                        let (_, left) = headed.as_slice().split_at(from);
                        self.leads(way, left, mark, ends, hops - 1)
                    }
                    None => false,
                }
            }
        }
    }

    // The least header that an input of a switch puts in front of a packet, if it has a range.
    fn least_header(&self, switch: u8, link: u8) -> Option<u16>
        ensures { (p : Plan) →
            IsNetworkOf p (state_of self.now) →
            IsDrawn ((switch_plan (network_of p) switch).random link) result }
    {
        match self.switch(switch) {
            Some(switch) => switch.least_header(link),
            None => None,
        }
    }

    // The first way by which a packet with this body may leave a switch, and at which of its bytes begins what leaves; nothing where
    // it may leave by none.
    fn way_on(&self, switch: u8, body: &[u8]) -> Option<(usize, usize)>
        ensures within { IfSome result (λ way. way.1 ≤ length body.now) }
        ensures leaves { (p : Plan) →
            IsNetworkOf p (state_of self.now) →
            MatchOption result
            ((out : ℕ) (left : List ℕ) →
            BodyLeaves (net_of (network_of p)) switch body.now out left → ⊥)
            (λ way.
            BodyLeaves (net_of (network_of p)) switch body.now way.0
            (drop way.1 body.now)) }
    {
        let (link, from) = self.switch(switch)?.first_way(body)?;
        Some((self.way_out(switch, link)?, from))
    }

    // The way that goes out by a link of a switch, if the link is on a wire.
    fn way_out(&self, switch: u8, link: u8) -> Option<usize>
        ensures { (p : Plan) →
            IsNetworkOf p (state_of self.now) →
            result ≡ out_at self.now.lines.wiring (self.now.nodes + switch) link }
    {
        match self.nodes.checked_add(switch) {
            Some(actor) => self.lines.outgoing(actor, link),
            None => None,
        }
    }

    /// The switch of this number, if there is one.
    pub(crate) fn switch(&self, number: u8) -> Option<&Switch>
        ensures { switch_at (slice_get self.now.actors.items (self.now.nodes + number)) ≡
            option_copied result }
    {
        match at(
            self.actors.as_slice(),
            usize::from(self.nodes) + usize::from(number),
        ) {
            Some(actor) => actor.switch(),
            None => None,
        }
    }
}

// A body behind the random header, if there is one.
fn headed(header: Option<u16>, body: &[u8]) -> Headed
    requires { length body.now + 2 ≤ 108 }
    ensures { result.items ≡ spelled (behind header []) ++ body.now }
{
    let mut all = ArrayVec::new();
    if let Some(header) = header {
        let [high, low] = header.to_be_bytes();
        all.push(high);
        all.push(low);
    }
    let _fits = all.try_extend_from_slice(body);
    all
}
