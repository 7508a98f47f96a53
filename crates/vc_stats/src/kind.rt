//! Kinds of events.
ghost use Rattle.std.specs.Prelude.{◌≡◌};
ghost use Rattle.vc_stats.specs.Kinds.{kind_of, kind_of_move, number_of, word_of};

use vc_core::Act;
use vc_occam::Move;

/// What an actor does in an event.
#[derive(Clone, Copy, Debug, PartialEq, Eq, Drop)]
pub(crate) enum Kind {
    /// An output begins.
    Offer,
    /// An input begins.
    Want,
    /// An ALT takes one of its guards.
    Choose,
    /// A channel is stopped.
    Stopch,
    /// Within a node an output meets an input.
    Inner,
    /// A process makes a step without a communication.
    Quiet,
    /// A token is taken from a wire.
    Take,
    /// A token of a packet is put on a wire.
    Put,
    /// A packet is bound to an output.
    Route,
    /// A flow control token is put on a wire.
    Fct,
    /// A token passes on from a receive buffer.
    Pass,
}

/// The kinds, in the order in which they are written.
pub(crate) const KINDS: [Kind; 11] = [
    Kind::Offer,
    Kind::Want,
    Kind::Choose,
    Kind::Stopch,
    Kind::Inner,
    Kind::Quiet,
    Kind::Take,
    Kind::Put,
    Kind::Route,
    Kind::Fct,
    Kind::Pass,
];

impl Kind {
    /// The kind of a move of a process.
    fn of_move(made: &Move) -> Kind
        ensures { result ≡ kind_of_move made.now }
    {
        match made {
            Move::Offer { .. } => Kind::Offer,
            Move::Want { .. } => Kind::Want,
            Move::Choose { .. } => Kind::Choose,
            Move::Stopch { .. } => Kind::Stopch,
            Move::Inner { .. } => Kind::Inner,
            Move::Quiet { .. } => Kind::Quiet,
        }
    }

    /// The kind of an act.
    pub(crate) fn of(act: &Act) -> Kind
        ensures { result ≡ kind_of act.now }
    {
        match act {
            Act::Proc(made) => Kind::of_move(made),
            Act::Take { .. } => Kind::Take,
            Act::Put { .. } => Kind::Put,
            Act::Route { .. } => Kind::Route,
            Act::Fct { .. } => Kind::Fct,
            Act::Pass { .. } => Kind::Pass,
        }
    }

    /// The kind's number.
    pub(crate) fn number(self) -> u16
        ensures { result ≡ number_of self }
    {
        match self {
            Kind::Offer => 0,
            Kind::Want => 1,
            Kind::Choose => 2,
            Kind::Stopch => 3,
            Kind::Inner => 4,
            Kind::Quiet => 5,
            Kind::Take => 6,
            Kind::Put => 7,
            Kind::Route => 8,
            Kind::Fct => 9,
            Kind::Pass => 10,
        }
    }

    /// The word by which an event of this kind is written.
    pub(crate) fn word(self) -> &'static [u8]
        ensures { result.now ≡ word_of self }
    {
        match self {
            Kind::Offer => b"offer",
            Kind::Want => b"want",
            Kind::Choose => b"choose",
            Kind::Stopch => b"stopch",
            Kind::Inner => b"inner",
            Kind::Quiet => b"quiet",
            Kind::Take => b"take",
            Kind::Put => b"put",
            Kind::Route => b"route",
            Kind::Fct => b"fct",
            Kind::Pass => b"pass",
        }
    }
}
