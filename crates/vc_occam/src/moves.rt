//! What a running process may begin with.
ghost use Rattle.std.specs.Prelude.{◌≡◌};
ghost use Rattle.vc_occam.specs.MoveSites.{site_of as its_site};

/// A move of a running process. Sites are preorder numbers, channels the plan's numbers, and guards count from 0 in their ALT.
#[derive(Clone, Copy, Debug, PartialEq, Eq, Drop)]
pub enum Move {
    /// An output begins.
    Offer {
        /// The output's site.
        site: u16,
        /// The channel.
        chan: u16,
    },
    /// An input begins.
    Want {
        /// The input's site.
        site: u16,
        /// The channel.
        chan: u16,
    },
    /// An ALT takes one of its guards.
    Choose {
        /// The ALT's site.
        site: u16,
        /// The guard's place.
        guard: u16,
        /// The guard's channel.
        chan: u16,
    },
    /// A channel is stopped.
    Stopch {
        /// The site that stops it.
        site: u16,
        /// The channel.
        chan: u16,
    },
    /// On a channel inside the node an output meets an input, or a guard of an ALT.
    Inner {
        /// The output's site.
        sender: u16,
        /// The site of the input or the ALT.
        receiver: u16,
        /// The guard's place, where the receiver is an ALT.
        guard: Option<u16>,
        /// The channel.
        chan: u16,
    },
    /// A step without a communication.
    Quiet {
        /// The site that makes it.
        site: u16,
    },
}

/// The move's site; of an output that meets an input, the output's.
pub(crate) fn site_of(made: &Move) -> u16
    ensures { result ≡ its_site made.now }
{
    match made {
        Move::Offer { site, .. } => *site,
        Move::Want { site, .. } => *site,
        Move::Choose { site, .. } => *site,
        Move::Stopch { site, .. } => *site,
        Move::Inner { sender, .. } => *sender,
        Move::Quiet { site } => *site,
    }
}
