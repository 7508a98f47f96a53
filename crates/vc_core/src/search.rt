//! Where a channel's packet is: held by its node, or at a way: in the queue at its near end, on it, or in the switch at its far end.
ghost use Rattle.std.specs.Prelude.{◌≡◌, ◌<◌, ◌++◌, ◌↔◌, ℕ, length, Some, None, IsTrue, ◌≢◌, ◌+◌, ◌*◌, [], false, List, IsSome};
ghost use Rattle.std.specs.List.{Contains};
ghost use Rattle.vc_accepted.specs.NetworkOf.{network_of, port_of as named_port};
ghost use Rattle.vc_core.specs.Channels.{ends_at};
ghost use Rattle.vc_core.specs.Private.PacketPlace.{AreOwned, FindsAt, FindsOn, HasIts};
ghost use Rattle.vc_core.specs.Private.Targets.{Has, IsOwned};
ghost use Rattle.vc_core.specs.State.{state_of, shown, IsNetworkOf};
ghost use Rattle.vc_machine.specs.Paths.{Net, AtSwitch};
ghost use Rattle.vc_machine.specs.Places as places;
ghost use Rattle.vc_machine.specs.Places.{IsOf};
ghost use Rattle.vc_machine.specs.PacketsOfTokens.{passed_on};
ghost use Rattle.vc_network.specs.Plan.{near as near_port, far as far_port, home, net_of, ways};
ghost use Rattle.vc_network.specs.Views.{arrived, switches, vcps};
ghost use Rattle.vc_packets.specs.declared.packet.Packet.{Packet};
ghost use Rattle.vc_plan.specs.declared.plan.Plan.{Plan};
ghost use Rattle.vc_switch.specs.SwitchView.{seen};
ghost use Rattle.vc_switch.specs.State.{plan_of};
ghost use Rattle.vc_tokens.specs.CodeTokens.{tokens};
ghost use Rattle.vc_core.specs.Replay.{Reached, Replays};
ghost use Rattle.std.specs.Option.{option_copied};
ghost use Rattle.vc_plan.specs.Accepted.{port_of as side_of};
ghost use Rattle.vc_core.specs.PacketPlace.{FindsPlace, IsUnfinished};
ghost use Rattle.vc_actor.specs.Private.Parts.{vcp_in};
ghost use Rattle.vc_core.specs.declared.event.Event.{Event as Happening};

use crate::channels::Ends;
use crate::network::Network;
use crate::place::Place;
use crate::reader::Reader;
use sqlite_items::at;
use vc_actor::Node;
use vc_plan::{Port, Spot, Wire};
use vc_switch::Switch;
use vc_tokens::Token;

impl Network {
    /// Where a packet of a channel is: there its end mark is. After any events from the opening state on a channel has a packet
    /// exactly where an output on it is not finished, and has only that one; a channel inside a node never has one. It takes no
    /// memory. The tables by which a packet goes show whose it is.
    pub fn place(&self, chan: u16) -> Option<Place>
        ensures finds { (p : Plan) (events : List Happening) →
            Reached p events (state_of self.now) →
            FindsPlace p (state_of self.now) chan result }
        ensures unfinished { (p : Plan) (events : List Happening) →
            Replays p events (state_of self.now) →
            chan < length p.channels →
            IsSome result ↔ IsUnfinished p (state_of self.now) chan }
    {
        let ends = self.ends(chan)?;
        self.place_by(chan, &ends)
    }

    // The ends of the virtual link that a channel is on.
    fn ends(&self, chan: u16) -> Option<Ends>
        ensures { (p : Plan) →
            IsNetworkOf p (state_of self.now) →
            result ≡ ends_at (network_of p) (home (network_of p) chan) }
    {
        match at(self.channels.as_slice(), usize::from(chan)) {
            Some(channel) => channel.ends,
            None => None,
        }
    }

    // Where a packet of the channel with these ends stands: held, or at one of the ways.
    fn place_by(&self, chan: u16, ends: &Ends) -> Option<Place>
        ensures { (p : Plan) →
            IsNetworkOf p (state_of self.now) →
            AreOwned (network_of p) (shown (state_of self.now)) →
            ends_at (network_of p) (home (network_of p) chan) ≡ Some ends.now →
            FindsPlace p (state_of self.now) chan result }
    {
        let node = ends.to.node;
        if self.holds(node, chan) {
            return Some(Place::Held(node));
        }
        for way in 0..self.lines.len() {
            if let Some(place) = self.place_on(way, ends) {
                return Some(place);
            }
        }
        None
    }

    // Whether a node holds a piece on a channel.
    fn holds(&self, node: u8, chan: u16) -> bool
        ensures { IsTrue result ↔
            ((vcps (shown (state_of self.now)) node).carrier.into chan).held ≢ None }
    {
        match self.node(node) {
            Some(node) => node.holds(chan),
            None => false,
        }
    }

    /// The node of this number, if there is one.
    pub(crate) fn node(&self, number: u8) -> Option<&Node>
        ensures { vcps (shown (state_of self.now)) number ≡ vcp_in (option_copied result) }
    {
        match at(self.actors.as_slice(), usize::from(number)) {
            Some(actor) => actor.node(),
            None => None,
        }
    }

    /// Where at a way a packet of the channel with these ends is.
    pub(crate) fn place_on(&self, way: usize, ends: &Ends) -> Option<Place>
        ensures { (p : Plan) (c : ℕ) →
            IsNetworkOf p (state_of self.now) →
            AreOwned (network_of p) (shown (state_of self.now)) →
            ends_at (network_of p) (home (network_of p) c) ≡ Some ends.now →
            way < length self.now.lines.ways →
            FindsOn (network_of p) (shown (state_of self.now)) c way result }
    {
        let wire = at(self.wires.as_slice(), way / 2)?;
        let from_one = way % 2 == 0;
        let far = port_of(wire, !from_one);
        if let Some(place) = self.place_along(way, far, ends) {
            return Some(place);
        }
        if let Some(place) = self.place_inside(far, ends) {
            return Some(place);
        }
        self.place_before(way, port_of(wire, from_one), ends)
    }

    // Where one stands that is on the way, or in the buffer at its far end.
    fn place_along(&self, way: usize, far: Port, ends: &Ends) -> Option<Place>
        ensures { (p : Plan) (c : ℕ) →
            IsNetworkOf p (state_of self.now) →
            AreOwned (network_of p) (shown (state_of self.now)) →
            ends_at (network_of p) (home (network_of p) c) ≡ Some ends.now →
            way < length self.now.lines.ways →
            far_port (network_of p) way ≡ named_port far →
            FindsAt (network_of p) (shown (state_of self.now)) c (places.OnWire way) result }
    {
        let Ok(number) = u16::try_from(way / 2) else {
            return None;
        };
        if self.carries(way, far, ends) {
            Some(Place::Wire(number, way % 2 == 0))
        } else {
            None
        }
    }

    // Whether one is on the way, or in the buffer at its far end.
    fn carries(&self, way: usize, far: Port, ends: &Ends) -> bool
        ensures { (p : Plan) (c : ℕ) →
            IsNetworkOf p (state_of self.now) →
            AreOwned (network_of p) (shown (state_of self.now)) →
            ends_at (network_of p) (home (network_of p) c) ≡ Some ends.now →
            way < length self.now.lines.ways →
            far_port (network_of p) way ≡ named_port far →
            IsTrue result ↔
            HasIts (network_of p) (shown (state_of self.now)) c (places.OnWire way) }
    {
        let (first, second) = self.tokens_at(far);
        let reader = Reader::new(way, *ends, self.passed_at(far))
            .through(self, first)
            .through(self, second);
        match self.lines.way(way) {
            Some(line) => {
                let (first, second) = line.tokens();
                reader
                    .through(self, first)
                    .through(self, second)
                    .has_found()
            }
            None => reader.has_found(),
        }
    }

    // The tokens that wait in the buffer at a port.
    fn tokens_at(&self, port: Port) -> (&[Token], &[Token])
        ensures { (p : Plan) →
            IsNetworkOf p (state_of self.now) →
            tokens (result.0.now ++ result.1.now) ≡
            (arrived (vcps (shown (state_of self.now)))
            (switches (network_of p) (shown (state_of self.now)))
            (named_port port)).buffer }
    {
        match port.spot {
            Spot::Node(number) => match self.node(number) {
                Some(node) => node.tokens_at(port.link),
                None => (&[], &[]),
            },
            Spot::Switch(number) => match self.switch(number) {
                Some(switch) => switch.tokens(port.link),
                None => (&[], &[]),
            },
        }
    }

    // The bytes that have passed at a port of a packet whose mark has not.
    fn passed_at(&self, port: Port) -> &[u8]
        ensures { (p : Plan) →
            IsNetworkOf p (state_of self.now) →
            result.now ≡
            passed_on (net_of (network_of p)) (named_port port)
            (arrived (vcps (shown (state_of self.now)))
            (switches (network_of p) (shown (state_of self.now))) (named_port port)).got
            (arrived (vcps (shown (state_of self.now)))
            (switches (network_of p) (shown (state_of self.now)))
            (named_port port)).mark }
    {
        match port.spot {
            Spot::Node(number) => match self.node(number) {
                Some(node) => node.passed_at(port.link),
                None => &[],
            },
            Spot::Switch(number) => match self.switch(number) {
                Some(switch) => passed_into(switch, port.link),
                None => &[],
            },
        }
    }

    // Where one stands that is whole in the switch at a port.
    fn place_inside(&self, far: Port, ends: &Ends) -> Option<Place>
        ensures { (p : Plan) (c way : ℕ) →
            IsNetworkOf p (state_of self.now) →
            AreOwned (network_of p) (shown (state_of self.now)) →
            ends_at (network_of p) (home (network_of p) c) ≡ Some ends.now →
            way < length self.now.lines.ways →
            far_port (network_of p) way ≡ named_port far →
            FindsAt (network_of p) (shown (state_of self.now)) c (places.Inside way) result }
    {
        match far.spot {
            Spot::Switch(number) if self.has_whole(number, far.link, ends) => {
                Some(Place::Inside(number, far.link))
            }
            _ => None,
        }
    }

    // Whether one is whole at an input of a switch.
    fn has_whole(&self, number: u8, link: u8, ends: &Ends) -> bool
        ensures { (p : Plan) (c way : ℕ) →
            IsNetworkOf p (state_of self.now) →
            AreOwned (network_of p) (shown (state_of self.now)) →
            ends_at (network_of p) (home (network_of p) c) ≡ Some ends.now →
            way < length self.now.lines.ways →
            far_port (network_of p) way ≡ AtSwitch number link →
            IsTrue result ↔
            HasIts (network_of p) (shown (state_of self.now)) c (places.Inside way) }
    {
        let Some(switch) = self.switch(number) else {
            return false;
        };
        match switch.mark(link) {
            Some(mark) => self.is_its_inside(number, switch.passed(link), mark, ends),
            None => false,
        }
    }

    // Where one stands that waits to go by the way, in the queue at a port.
    fn place_before(&self, way: usize, near: Port, ends: &Ends) -> Option<Place>
        ensures { (p : Plan) (c : ℕ) →
            IsNetworkOf p (state_of self.now) →
            AreOwned (network_of p) (shown (state_of self.now)) →
            ends_at (network_of p) (home (network_of p) c) ≡ Some ends.now →
            way < length self.now.lines.ways →
            near_port (network_of p) way ≡ named_port near →
            FindsAt (network_of p) (shown (state_of self.now)) c (places.Queue way) result }
    {
        match near.spot {
            Spot::Node(number) if self.queues(number, near.link, way, ends) => {
                Some(Place::Queue(number))
            }
            _ => None,
        }
    }

    // Whether one waits in the queue of a node's link to go by the way.
    fn queues(&self, number: u8, link: u8, way: usize, ends: &Ends) -> bool
        ensures { (p : Plan) (c : ℕ) →
            IsNetworkOf p (state_of self.now) →
            way < ways (network_of p) →
            ends_at (network_of p) (home (network_of p) c) ≡ Some ends.now →
            ((q : Packet) →
            Contains ((vcps (shown (state_of self.now)) number).carrier.queue link) q →
            IsOwned (network_of p) (places.OnWire way, q)) →
            IsTrue result ↔
            Has (λ q. IsOf (net_of (network_of p)) way None q c)
            ((vcps (shown (state_of self.now)) number).carrier.queue link) }
    {
        let Some(node) = self.node(number) else {
            return false;
        };
        let (first, second) = node.packets_at(link);
        self.has_its(way, first, ends) || self.has_its(way, second, ends)
    }
}

// The bytes that have passed at an input of a packet whose mark has not, without the random header.
fn passed_into(switch: &Switch, link: u8) -> &[u8]
    ensures { (net : Net) (k : ℕ) →
        plan_of switch.now ≡ net.switch k →
        result.now ≡
        passed_on net (AtSwitch k link) ((seen switch.now).input link).got
        ((seen switch.now).input link).mark }
{
    if switch.mark(link).is_some() {
        return &[];
    }
    let passed = switch.passed(link);
    if switch.least_header(link).is_none() {
        return passed;
    }
    match passed {
        [_, _, rest @ ..] => rest,
        _ => &[],
    }
}

/// Port one or port two of a wire.
pub(crate) fn port_of(wire: &Wire, is_one: bool) -> Port
    ensures { result ≡ side_of wire.now is_one }
{
    if is_one { wire.one } else { wire.two }
}
