//! What the channels of a network carried.
ghost use Rattle.std.specs.Prelude.{◌≡◌, ◌<◌, ◌≤◌, [], false, length, slice_get, Some, None};
ghost use Rattle.vc_plan.specs.declared.plan.Plan.{Plan};
ghost use Rattle.std.specs.Option.{option_copied};
ghost use Rattle.vc_plan.specs.declared.channel.Channel.{Channel};
ghost use Rattle.vc_accepted.specs.NetworkOf.{network_of};
ghost use Rattle.vc_blocks.specs.Messages.{listed};
ghost use Rattle.vc_network.specs.Plan.{home};
ghost use Rattle.vc_network.specs.Views.{view, source_node, sink_node};
ghost use Rattle.vc_actor.specs.Private.Parts.{node_at};
ghost use Rattle.vc_core.specs.State.{shown, state_of, IsNetworkOf};

use crate::network::Network;
use sqlite_items::at;
use vc_actor::Node;
use vc_blocks::Messages;
use vc_occam::ValueKind;

impl Network {
    /// How many channels there are.
    pub fn channels(&self) -> u16
        ensures { (p : Plan) →
            IsNetworkOf p (state_of self.now) →
            result ≡ length p.channels }
    {
        self.channels.len().min(65535) as u16
    }

    /// The name of a channel: 1 to 16 ASCII letters, digits, `_` and `-`. It is empty where the network has no such channel.
    pub fn name(&self, chan: u16) -> &str
        ensures is { (p : Plan) (x : Channel) →
            IsNetworkOf p (state_of self.now) →
            slice_get p.channels chan ≡ Some x →
            result.now ≡ x.name }
        ensures lacks { (p : Plan) →
            IsNetworkOf p (state_of self.now) →
            length p.channels ≤ chan →
            result.now ≡ [] }
    {
        match at(self.channels.as_slice(), usize::from(chan)) {
            Some(channel) => channel.name.as_str(),
            None => "",
        }
    }

    /// The kind of a channel: what its messages are. It is INT where the network has no such channel.
    pub fn kind(&self, chan: u16) -> ValueKind
        ensures is { (p : Plan) (x : Channel) →
            IsNetworkOf p (state_of self.now) →
            slice_get p.channels chan ≡ Some x →
            result ≡ x.kind }
        ensures lacks { (p : Plan) →
            IsNetworkOf p (state_of self.now) →
            length p.channels ≤ chan →
            result ≡ ValueKind.Int }
    {
        match at(self.channels.as_slice(), usize::from(chan)) {
            Some(channel) => channel.kind,
            None => ValueKind::Int,
        }
    }

    /// The messages offered on a channel, the first one first. There are none where the network has no such channel.
    pub fn offered(&self, chan: u16) -> Messages<'_>
        ensures shows { (p : Plan) →
            IsNetworkOf p (state_of self.now) →
            chan < length p.channels →
            listed result ≡ (view (network_of p) (shown (state_of self.now)) chan).offered }
        ensures lacks { (p : Plan) →
            IsNetworkOf p (state_of self.now) →
            length p.channels ≤ chan →
            listed result ≡ [] }
    {
        match self.source(chan) {
            Some(node) => node.offered(chan),
            None => Messages::none(),
        }
    }

    /// The messages taken on a channel, the first one first. There are none where the network has no such channel.
    pub fn taken(&self, chan: u16) -> Messages<'_>
        ensures shows { (p : Plan) →
            IsNetworkOf p (state_of self.now) →
            chan < length p.channels →
            listed result ≡ (view (network_of p) (shown (state_of self.now)) chan).taken }
        ensures lacks { (p : Plan) →
            IsNetworkOf p (state_of self.now) →
            length p.channels ≤ chan →
            listed result ≡ [] }
    {
        match self.sink(chan) {
            Some(node) => node.taken(chan),
            None => Messages::none(),
        }
    }

    /// How many outputs on a channel are finished: 0 where the network has no such channel.
    pub fn finished(&self, chan: u16) -> u64
        ensures shows { (p : Plan) →
            IsNetworkOf p (state_of self.now) →
            chan < length p.channels →
            result ≡ (view (network_of p) (shown (state_of self.now)) chan).finished }
        ensures lacks { (p : Plan) →
            IsNetworkOf p (state_of self.now) →
            length p.channels ≤ chan →
            result ≡ 0 }
    {
        match self.source(chan) {
            Some(node) => node.finished(chan),
            None => 0,
        }
    }

    /// Whether a channel was stopped. The answer is no where the network has no such channel.
    pub fn stopped(&self, chan: u16) -> bool
        ensures shows { (p : Plan) →
            IsNetworkOf p (state_of self.now) →
            chan < length p.channels →
            result ≡ (view (network_of p) (shown (state_of self.now)) chan).stopped }
        ensures lacks { (p : Plan) →
            IsNetworkOf p (state_of self.now) →
            length p.channels ≤ chan →
            result ≡ false }
    {
        match self.sink(chan) {
            Some(node) => node.stopped(chan),
            None => false,
        }
    }

    // The node that outputs on a channel. There is none where the network has no such channel.
    fn source(&self, chan: u16) -> Option<&Node>
        ensures shows { (p : Plan) →
            IsNetworkOf p (state_of self.now) →
            chan < length p.channels →
            node_at
            (slice_get self.now.actors.items
            (source_node (network_of p) (home (network_of p) chan))) ≡
            option_copied result }
        ensures lacks { (p : Plan) →
            IsNetworkOf p (state_of self.now) →
            length p.channels ≤ chan →
            result ≡ None }
    {
        match at(self.channels.as_slice(), usize::from(chan)) {
            Some(channel) => match at(self.actors.as_slice(), channel.source) {
                Some(actor) => actor.node(),
                None => None,
            },
            None => None,
        }
    }

    // The node that inputs on a channel. There is none where the network has no such channel.
    fn sink(&self, chan: u16) -> Option<&Node>
        ensures shows { (p : Plan) →
            IsNetworkOf p (state_of self.now) →
            chan < length p.channels →
            node_at
            (slice_get self.now.actors.items
            (sink_node (network_of p) (home (network_of p) chan))) ≡
            option_copied result }
        ensures lacks { (p : Plan) →
            IsNetworkOf p (state_of self.now) →
            length p.channels ≤ chan →
            result ≡ None }
    {
        match at(self.channels.as_slice(), usize::from(chan)) {
            Some(channel) => match at(self.actors.as_slice(), channel.sink) {
                Some(actor) => actor.node(),
                None => None,
            },
            None => None,
        }
    }
}
