//! Packets put together byte by byte.

use std::alloc::Global;
use std::marker::Model;
use vc_packets::{Bytes, Mark, Memory, Packet};

/// The bytes of a packet whose mark hasn't come. There is room for as many as a packet may have.
#[derive(Drop)]
pub struct Assembler {
    alloc: Global,
    passed: Vec<u8>,
    limit: usize,
}

impl Model for Assembler {
    ghost use Rattle.std.specs.Prelude.{◌≤◌, vec_len, vec_capacity};
    ghost use Rattle.vc_tokens.specs.Assembly.{Assembly};

    ghost Value = { Assembly };

    ghost view = { λ a. record { passed = a.passed.items; limit = a.limit } };

    ghost invariant = { λ a. (vec_len a.passed ≤ a.limit) × (a.limit ≤ vec_capacity a.passed) };
}

impl Assembler {
    ghost use Rattle.std.specs.Prelude.{◌≡◌, ◌<◌, ◌≤◌, [], ◌∷◌, ◌++◌, length, IsTrue, IfOk, OnOk, OnErr, ◌↔◌};
    ghost use Rattle.std.specs.Bool.{OnTrue, OnFalse};

    /// An assembler of packets with at most `limit` bytes.
    pub fn new(alloc: Global, limit: usize) -> Result<Assembler, Memory>
        ensures { IfOk result (λ assembler. assembler ≡ record { passed = []; limit = limit }) }
    {
        let passed = Vec::with_capacity(alloc, limit)?;
        Ok(Assembler {
            alloc,
            passed,
            limit,
        })
    }

    /// How many bytes have passed.
    pub fn len(&self) -> usize
        ensures len { result ≡ length self.now.passed }
        ensures within { result ≤ self.now.limit }
    {
        self.passed.len()
    }

    /// Whether no byte has passed.
    pub fn is_empty(&self) -> bool
        ensures { IsTrue result ↔ (self.now.passed ≡ []) }
    {
        self.passed.is_empty()
    }

    /// The bytes that have passed.
    pub fn bytes(&self) -> &[u8]
        ensures { result.now ≡ self.now.passed }
    {
        &self.passed
    }

    /// The next packet begins. It takes no memory.
    pub fn clear(&mut self)
        ensures { self.new ≡ record self.old { passed = [] } }
    {
        self.passed.clear();
    }

    /// Whether the packet has as many bytes as it may.
    pub fn is_full(&self) -> bool
        ensures full { IsTrue result ↔ (length self.now.passed ≡ self.now.limit) }
        ensures within { length self.now.passed ≤ self.now.limit }
    {
        self.passed.len() == self.limit
    }

    /// Adds a byte, and says whether there was room: a byte past the limit is dropped. It takes no memory.
    pub fn push(&mut self, byte: u8) -> bool
        ensures room { IsTrue result ↔ (length self.old.passed < self.old.limit) }
        ensures added { OnTrue result
            (self.new ≡ record self.old { passed = self.old.passed ++ byte ∷ [] }) }
        ensures dropped { OnFalse result (self.new ≡ self.old) }
    {
        let has_room = self.passed.len() < self.limit;
        if has_room {
            self.passed.push_reserved(byte);
        }
        has_room
    }

    /// The packet of the bytes that have passed, with its mark; the next packet begins. For want of memory nothing changes.
    pub fn take(&mut self, mark: Mark) -> Result<Packet, Memory>
        ensures packet { IfOk result
            (λ packet. packet ≡ record { body = self.old.passed; mark = mark }) }
        ensures begun { OnOk result (self.new ≡ record self.old { passed = [] }) }
        ensures err { OnErr result (self.new ≡ self.old) }
    {
        let body = Bytes::from_slice(self.alloc, &self.passed)?;
        self.passed.clear();
        Ok(Packet { body, mark })
    }

    /// Begins with the bytes that the other has, in place of its own. It takes no memory.
    pub(crate) fn copy_from(&mut self, other: &Assembler)
        requires { self.old.limit ≡ other.now.limit }
        ensures same { self.new ≡ other.now }
        ensures within { length self.new.passed ≤ self.new.limit }
    {
        self.passed.clear();
        for byte in &other.passed {
            self.passed.push_reserved(*byte);
        }
    }
}
