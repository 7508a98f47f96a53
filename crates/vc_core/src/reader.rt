//! Packets read from tokens.
ghost use Rattle.std.specs.Prelude.{◌≡◌, ◌<◌, ◌++◌, [], ◌∷◌, ℕ, List, Some};
ghost use Rattle.vc_accepted.specs.NetworkOf.{network_of};
ghost use Rattle.vc_core.specs.Channels.{ends_at};
ghost use Rattle.vc_core.specs.Private.Targets.{HasRead, left};
ghost use Rattle.vc_core.specs.State.{state_of, IsNetworkOf};
ghost use Rattle.vc_machine.specs.PacketsOfTokens.{read};
ghost use Rattle.vc_network.specs.Plan.{home, ways};
ghost use Rattle.vc_packets.specs.declared.packet.Packet.{Packet};
ghost use Rattle.vc_plan.specs.declared.plan.Plan.{Plan};
ghost use Rattle.vc_tokens.specs.CodeTokens.{token as spelt, tokens as all_spelt};

use crate::channels::Ends;
use crate::network::Network;
use crate::prefix::Prefix;
use vc_packets::Mark;
use vc_tokens::Token;

/// Reads the packets that tokens on a way spell, and reports whether one of a channel's was among them.
#[derive(Drop)]
pub(crate) struct Reader {
    way: usize,
    ends: Ends,
    prefix: Prefix,
    found: bool,
}

impl Reader {
    /// A reader of a way in search of a packet of the channel with these ends, which begins within a packet, of which these bytes
    /// have come.
    pub(crate) fn new(way: usize, ends: Ends, passed: &[u8]) -> Reader
        ensures { (p : Plan) (c : ℕ) →
            way < ways (network_of p) →
            ends_at (network_of p) (home (network_of p) c) ≡ Some ends →
            HasRead p c way [] passed.now result }
    {
        Reader {
            way,
            ends,
            prefix: Prefix::of(passed),
            found: false,
        }
    }

    /// The same, when these tokens have been read as well.
    pub(crate) fn through(self, network: &Network, tokens: &[Token]) -> Reader
        ensures { (p : Plan) (c w : ℕ) (ps : List Packet) (got : List ℕ) →
            IsNetworkOf p (state_of network.now) →
            HasRead p c w ps got self →
            HasRead p c w (ps ++ read got (all_spelt tokens.now)) (left got (all_spelt tokens.now))
            result }
    {
        let mut reader = self;
        for token in tokens {
            reader = reader.with(network, token);
        }
        reader
    }

    /// Whether one of the channel's packets has been read.
    pub(crate) fn has_found(&self) -> bool
        ensures { result ≡ self.now.found }
    {
        self.found
    }

    // The same, when one token more has been read.
    fn with(self, network: &Network, token: &Token) -> Reader
        ensures { (p : Plan) (c w : ℕ) (ps : List Packet) (got : List ℕ) →
            IsNetworkOf p (state_of network.now) →
            HasRead p c w ps got self →
            HasRead p c w (ps ++ read got (spelt token.now ∷ [])) (left got (spelt token.now ∷ []))
            result }
    {
        match *token {
            Token::Byte(byte) => Reader {
                way: self.way,
                ends: self.ends,
                prefix: self.prefix.with(byte),
                found: self.found,
            },
            Token::Eop => self.ended(network, Mark::Eop),
            Token::Eom => self.ended(network, Mark::Eom),
            Token::Fct => self,
        }
    }

    // The same, when the packet that comes has ended with this mark.
    fn ended(self, network: &Network, mark: Mark) -> Reader
        ensures { (p : Plan) (c w : ℕ) (ps : List Packet) (got : List ℕ) →
            IsNetworkOf p (state_of network.now) →
            HasRead p c w ps got self →
            HasRead p c w (ps ++ record { body = got; mark = mark } ∷ []) [] result }
    {
        let found = self.found || network.is_its(self.way, self.prefix.bytes(), mark, &self.ends);
        Reader {
            way: self.way,
            ends: self.ends,
            prefix: Prefix::of(&[]),
            found,
        }
    }
}
