//! The credit of a sending end.

use std::marker::Model;

/// How many tokens an FCT promises places for.
pub(crate) const GRANTED: u8 = 8;

/// The credit of a sending end: how many more tokens it may send. Contracts see it as that number.
#[derive(Drop)]
pub struct Sender {
    credit: u8,
}

impl Model for Sender {
    ghost use Rattle.std.specs.Prelude.{ℕ, ◌≤◌};

    ghost Value = { ℕ };

    ghost view = { λ s. s.credit };

    ghost invariant = { λ s. s.credit ≤ 16 };
}

impl Sender {
    ghost use Rattle.std.specs.Prelude.{◌≡◌, ◌≤◌, ◌<◌, ◌+◌, ◌-◌, ◌↔◌, IsTrue};

    /// A sending end without credit.
    pub fn new() -> Sender
        ensures { result ≡ 0 }
    {
        Sender { credit: 0 }
    }

    /// How many more tokens may be sent.
    pub fn credit(&self) -> u8
        ensures credit { result ≡ self.now }
        ensures within { result ≤ 16 }
    {
        self.credit
    }

    /// Whether a token may be sent.
    pub fn may_send(&self) -> bool
        ensures { IsTrue result ↔ (0 < self.now) }
    {
        self.credit > 0
    }

    /// A token is sent.
    pub fn spend(&mut self)
        requires { 0 < self.old }
        ensures { self.new ≡ self.old - 1 }
    {
        self.credit -= 1;
    }

    /// Whether an FCT may come: it finds a credit of at most 8.
    pub fn may_fct(&self) -> bool
        ensures { IsTrue result ↔ (self.now ≤ 8) }
    {
        self.credit <= 8
    }

    /// An FCT comes: eight more tokens may be sent.
    pub fn fct(&mut self)
        requires { self.old ≤ 8 }
        ensures { self.new ≡ self.old + 8 }
    {
        self.credit += GRANTED;
    }
}
