//! The receiving end of a node's link: tokens wait in its buffer under credit, and pass on to the packet that is arriving.
//!
//! An FCT that is sent promises eight places of the buffer, and only a promised place takes a token.
use std::alloc::Global;
use std::marker::Model;
use vc_credit::Receiver;
use vc_packets::Memory;
use vc_tokens::{Assembler, Token};

/// The receiving end of a node's link: the buffer under credit, and the packet that is being put together.
#[derive(Drop)]
pub struct LinkIn {
    receiver: Receiver,
    packet: Assembler,
}

impl Model for LinkIn {
    ghost use Rattle.vc_vcp.specs.LinkIn.{Receiving};

    ghost Value = { Receiving };

    ghost view = { λ x. record {
      receiver = x.receiver;
      passed = x.packet.passed;
      limit = x.packet.limit;
    } };
}

impl LinkIn {
    ghost use Rattle.std.specs.Prelude.{◌≡◌, ◌<◌, [], ◌∷◌, ◌++◌, length, ◌↔◌, IsTrue, IfOk, MatchOption};
    ghost use Rattle.vc_packets.specs.declared.mark.Mark.{Mark};
    ghost use Rattle.vc_tokens.specs.CodeTokens.{token, tokens};
    ghost use Rattle.vc_tokens.specs.Tokens.{Byte, EndMark};
    ghost use Rattle.vc_credit.specs.Ends.{new_receiver, received, HasRoom, Grants, IsFront, Passes};
    ghost use Rattle.std.specs.Bool.{OnTrue, OnFalse};

    /// An empty end for packets of at most `limit` bytes.
    pub(crate) fn new(alloc: Global, limit: usize) -> Result<LinkIn, Memory>
        ensures { IfOk result
            (λ x. x ≡ record { receiver = new_receiver; passed = []; limit = limit }) }
    {
        let receiver = Receiver::new(alloc)?;
        let packet = Assembler::new(alloc, limit)?;
        Ok(LinkIn { receiver, packet })
    }

    /// Whether a place was promised.
    pub(crate) fn is_promised(&self) -> bool
        ensures { IsTrue result ↔ (0 < self.now.receiver.promised) }
    {
        self.receiver.is_promised()
    }

    /// A token comes, and takes a place that was promised.
    pub(crate) fn accept(&mut self, came: Token)
        requires { 0 < self.old.receiver.promised }
        ensures { self.new ≡
            record self.old { receiver = received self.old.receiver (token came) } }
    {
        self.receiver.accept(came);
    }

    /// Whether no token waits.
    pub(crate) fn is_empty(&self) -> bool
        ensures { IsTrue result ↔ (self.now.receiver.buffer ≡ []) }
    {
        self.receiver.is_empty()
    }

    /// The token that waits at the front.
    pub fn front(&self) -> Option<Token>
        ensures { MatchOption result (self.now.receiver.buffer ≡ [])
            (λ front. IsFront self.now.receiver (token front)) }
    {
        self.receiver.front()
    }

    /// The tokens that wait, in two parts: those of the first came before those of the second.
    pub fn tokens(&self) -> (&[Token], &[Token])
        ensures { tokens (result.0.now ++ result.1.now) ≡ self.now.receiver.buffer }
    {
        self.receiver.tokens()
    }

    /// The bytes that have passed of the packet whose mark has not.
    pub fn passed(&self) -> &[u8]
        ensures { result.now ≡ self.now.passed }
    {
        self.packet.bytes()
    }

    /// Whether an FCT may be sent: eight places are free and not promised.
    pub(crate) fn may_grant(&self) -> bool
        ensures { IsTrue result ↔ HasRoom self.now.receiver }
    {
        self.receiver.may_grant()
    }

    /// An FCT is sent: eight places more are promised.
    pub(crate) fn grant(&mut self)
        requires { HasRoom self.old.receiver }
        ensures grants { Grants self.old.receiver self.new.receiver }
        ensures rest { self.new ≡ record self.old { receiver = self.new.receiver } }
    {
        self.receiver.grant();
    }

    /// The front token leaves the buffer.
    pub(crate) fn pop(&mut self) -> Option<Token>
        ensures { MatchOption result ((self.old.receiver.buffer ≡ []) × (self.new ≡ self.old))
            (λ front.
            Passes self.old.receiver (token front) self.new.receiver ×
            (self.new ≡ record self.old { receiver = self.new.receiver })) }
    {
        self.receiver.pop()
    }

    /// A byte joins the packet, or is dropped where the packet has as many as it may; whether it joined.
    pub(crate) fn push(&mut self, byte: u8) -> bool
        ensures room { IsTrue result ↔ (length self.old.passed < self.old.limit) }
        ensures added { OnTrue result
            (self.new ≡ record self.old { passed = self.old.passed ++ byte ∷ [] }) }
        ensures dropped { OnFalse result (self.new ≡ self.old) }
    {
        self.packet.push(byte)
    }

    /// The next packet begins.
    pub(crate) fn clear(&mut self)
        ensures { self.new ≡ record self.old { passed = [] } }
    {
        self.packet.clear();
    }

    /// The byte at the front passes: it joins the packet, or is dropped where the packet has as many as it may; whether it joined.
    pub(crate) fn pass_byte(&mut self, byte: u8) -> bool
        requires { IsFront self.old.receiver (Byte byte) }
        ensures front { Passes self.old.receiver (Byte byte) self.new.receiver }
        ensures room { IsTrue result ↔ (length self.old.passed < self.old.limit) }
        ensures added { OnTrue result
            (self.new ≡
            record self.old
            { receiver = self.new.receiver; passed = self.old.passed ++ byte ∷ [] }) }
        ensures dropped { OnFalse result
            (self.new ≡ record self.old { receiver = self.new.receiver }) }
    {
        let _byte = self.pop();
        self.push(byte)
    }

    /// The mark at the front passes, and the next packet begins.
    pub(crate) fn pass_mark(&mut self)
        requires { (mark : Mark) × IsFront self.old.receiver (EndMark mark) }
        ensures front { (mark : Mark) →
            IsFront self.old.receiver (EndMark mark) →
            Passes self.old.receiver (EndMark mark) self.new.receiver }
        ensures after { self.new ≡ record self.old { receiver = self.new.receiver; passed = [] } }
    {
        let _mark = self.pop();
        self.clear();
    }
}
