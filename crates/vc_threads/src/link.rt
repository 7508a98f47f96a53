//! What goes over a link between two threads.
ghost use Rattle.std.specs.Prelude.{◌≤◌};

use rtrb::{Consumer, Producer, Protocol};
use std::alloc::Global;
use vc_tokens::Token;

/// A token with the stamp of the act that put it.
#[derive(Clone, Copy, Debug, PartialEq, Eq, Drop)]
pub struct Stamped {
    /// The stamp, at least 1.
    pub at: u64,
    /// The token.
    pub item: Token,
}

/// The rule of the rings: the stamp of an item is at least 1.
///
/// The two ends of a ring make two kinds of atomic step: a push is the put of one item by the actor at one end, and a pop is the take
/// of one item by the actor at the other. Whatever else a worker does changes its own state alone.
#[derive(Clone, Copy, Drop)]
pub struct LinkRule;

impl Protocol<Stamped> for LinkRule {
    ghost allows = { λ before x. 1 ≤ x.at };
}

/// How many items a ring holds.
pub const PLACES: usize = 32;

/// The end of a ring at the actor that puts items on it.
pub type Out = Producer<Stamped, Global, LinkRule>;

/// The end of a ring at the actor that takes items off it.
pub type In = Consumer<Stamped, Global, LinkRule>;

/// An actor's ends of its rings, each with the actor's link.
#[derive(Drop)]
pub struct Ends {
    /// The rings that go out.
    pub outs: Vec<(u8, Out)>,
    /// The rings that come in.
    pub ins: Vec<(u8, In)>,
}
