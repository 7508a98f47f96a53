//! A log of messages, packed into one buffer.
ghost use Rattle.std.specs.Prelude.{◌≡◌, [], ◌∷◌, ◌++◌, ◌-◌, length, take, slice_get, OnOk, OnErr};
ghost use Rattle.std.specs.Option.{option_copied};

use crate::ends::Ends;
use std::alloc::Global;
use std::marker::Model;
use vc_packets::Memory;

/// Messages in the order in which they came, which contracts see as their list. Their bytes are in one buffer, one message after
/// another; messages as long as the first one take nothing besides, as long as no other came.
#[derive(Drop)]
pub struct MessageLog {
    bytes: Vec<u8>,
    ends: Ends,
}

impl Model for MessageLog {
    ghost use Rattle.std.specs.Prelude.{ℕ, List, length};
    ghost use Rattle.vc_blocks.specs.Private.Logs.{cut, RiseTo};

    ghost Value = { List (List ℕ) };

    ghost view = { λ x. cut x.bytes.items 0 x.ends };

    ghost invariant = { λ x. RiseTo (length x.bytes.items) 0 x.ends };
}

impl MessageLog {
    /// No messages.
    pub fn new(alloc: Global) -> MessageLog
        ensures { result ≡ [] }
    {
        MessageLog {
            bytes: Vec::new(alloc),
            ends: Ends::new(alloc),
        }
    }

    /// How many messages.
    pub fn len(&self) -> usize
        ensures { result ≡ length self.now }
    {
        self.ends.len()
    }

    /// The message at a place.
    pub fn get(&self, at: usize) -> Option<&[u8]>
        ensures { option_copied result ≡ slice_get self.now at }
    {
        let end = self.ends.get(at)?;
        let begin = self.ends.before(at);
        Some(&self.bytes[begin..end])
    }

    /// Adds a message at the end. For want of memory nothing changes.
    pub fn push(&mut self, message: &[u8]) -> Result<(), Memory>
        ensures ok { OnOk result (self.new ≡ self.old ++ message.now ∷ []) }
        ensures err { OnErr result (self.new ≡ self.old) }
    {
        self.push_joined(message, &[])
    }

    /// Adds a message at the end, which is given in two parts. For want of memory nothing changes.
    #[inline(always)]
    pub fn push_joined(&mut self, front: &[u8], back: &[u8]) -> Result<(), Memory>
        ensures ok { OnOk result (self.new ≡ self.old ++ (front.now ++ back.now) ∷ []) }
        ensures err { OnErr result (self.new ≡ self.old) }
    {
        let before = self.bytes.len();
        self.bytes.extend_from_slice(front)?;
        if self.bytes.extend_from_slice(back).is_err()
            || self.ends.push(self.bytes.len()).is_err()
        {
            self.bytes.truncate(before);
            return Err(Memory);
        }
        Ok(())
    }

    /// Takes the last message away, if there is one.
    pub fn pop(&mut self)
        ensures { self.new ≡ take (length self.old - 1) self.old }
    {
        self.ends.pop();
        self.bytes.truncate(self.ends.before(self.ends.len()));
    }
}
