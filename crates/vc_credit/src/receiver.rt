//! The buffer of a receiving end.

use crate::sender::GRANTED;
use circular_buffer::HeapCircularBuffer;
use std::alloc::Global;
use std::marker::Model;
use vc_packets::Memory;
use vc_tokens::Token;

/// The places of a receive buffer (profile).
const PLACES: usize = 16;

/// The buffer of a receiving end, and how many of its free places were promised by FCTs.
#[derive(Drop)]
pub struct Receiver {
    buffer: HeapCircularBuffer<Token>,
    promised: usize,
}

impl Model for Receiver {
    ghost use Rattle.std.specs.Prelude.{◌≡◌, ◌≤◌, ◌+◌, length};
    ghost use Rattle.vc_credit.specs.Ends.{Receiver};

    ghost Value = { Receiver };

    ghost use Rattle.vc_tokens.specs.CodeTokens.{tokens};

    ghost view = { λ r. record { buffer = tokens r.buffer.items; promised = r.promised } };

    ghost invariant = { λ r. (r.buffer.capacity ≡ 16) × (length r.buffer.items + r.promised ≤ 16) };
}

impl Receiver {
    ghost use Rattle.std.specs.Prelude.{◌≡◌, ◌<◌, ◌++◌, ◌↔◌, [], IsTrue, IfOk, MatchOption};
    ghost use Rattle.vc_credit.specs.Ends.{new_receiver, received, Passes, IsFront, HasRoom, Grants};
    ghost use Rattle.vc_tokens.specs.CodeTokens.{token, tokens};

    /// An empty buffer with no place promised.
    pub fn new(alloc: Global) -> Result<Receiver, Memory>
        ensures { IfOk result (λ receiver. receiver ≡ new_receiver) }
    {
        let buffer = HeapCircularBuffer::with_capacity(alloc, PLACES)?;
        Ok(Receiver {
            buffer,
            promised: 0,
        })
    }

    /// Whether a place was promised to the next token that comes.
    pub fn is_promised(&self) -> bool
        ensures { IsTrue result ↔ (0 < self.now.promised) }
    {
        self.promised > 0
    }

    /// A token comes, and takes a place that was promised.
    pub fn accept(&mut self, came: Token)
        requires { 0 < self.old.promised }
        ensures { self.new ≡ received self.old (token came) }
    {
        self.buffer.try_push_back(came).unwrap();
        self.promised -= 1;
    }

    /// Whether no token waits.
    pub fn is_empty(&self) -> bool
        ensures { IsTrue result ↔ (self.now.buffer ≡ []) }
    {
        self.buffer.is_empty()
    }

    /// The token that came first of those that wait, which stays.
    pub fn front(&self) -> Option<Token>
        ensures { MatchOption result (self.now.buffer ≡ [])
            (λ front. IsFront self.now (token front)) }
    {
        self.buffer.front().copied()
    }

    /// The tokens that wait, in two parts: those of the first came before those of the second.
    pub fn tokens(&self) -> (&[Token], &[Token])
        ensures { tokens (result.0.now ++ result.1.now) ≡ self.now.buffer }
    {
        self.buffer.as_slices()
    }

    /// The token that came first of those that wait, which passes on.
    pub fn pop(&mut self) -> Option<Token>
        ensures { MatchOption result ((self.old.buffer ≡ []) × (self.new ≡ self.old))
            (λ front. Passes self.old (token front) self.new) }
    {
        self.buffer.pop_front()
    }

    /// Whether an FCT may be sent: eight places are free and not promised.
    pub fn may_grant(&self) -> bool
        ensures { IsTrue result ↔ HasRoom self.now }
    {
        self.buffer.len() + self.promised + usize::from(GRANTED) <= PLACES
    }

    /// An FCT is sent: eight places more are promised.
    pub fn grant(&mut self)
        requires { HasRoom self.old }
        ensures { Grants self.old self.new }
    {
        self.promised += usize::from(GRANTED);
    }
}
