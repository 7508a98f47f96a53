//! Lists of bytes: messages, and the bodies of packets.

use smallvec::SmallVec;
use std::alloc::{AllocError, Global};
use std::marker::Model;

/// A list of bytes, which contracts see as the list. Up to 16 bytes are in the value itself, so that numbers, short texts and
/// acknowledges take no memory of their own.
#[derive(Debug, Drop)]
pub struct Bytes {
    bytes: SmallVec<u8, 16>,
}

impl Model for Bytes {
    ghost use Rattle.std.specs.Prelude.{ℕ, List};

    ghost Value = { List ℕ };

    ghost view = { λ x. x.bytes.items };
}

impl Bytes {
    ghost use Rattle.std.specs.Prelude.{◌≡◌, ◌<◌, ◌≤◌, [], ◌∷◌, ◌++◌, length, slice_get, IfOk, IsOk, OnOk, OnErr, OnSome};
    ghost use Rattle.std.specs.Option.{option_copied};

    /// No bytes.
    pub fn new(alloc: Global) -> Bytes
        ensures { result ≡ [] }
    {
        Bytes {
            bytes: SmallVec::new(alloc),
        }
    }

    /// No bytes, with room for so many.
    pub fn with_capacity(alloc: Global, room: usize) -> Result<Bytes, AllocError>
        ensures { IfOk result (λ it. it ≡ []) }
    {
        let bytes = SmallVec::with_capacity(alloc, room)?;
        Ok(Bytes { bytes })
    }

    /// The bytes of a vector, where they are.
    pub fn from_vec(bytes: Vec<u8>) -> Bytes
        ensures { result ≡ bytes.items }
    {
        Bytes {
            bytes: SmallVec::from_vec(bytes),
        }
    }

    /// A copy of these bytes, which takes no memory of its own where there are at most 16.
    pub fn from_slice(alloc: Global, bytes: &[u8]) -> Result<Bytes, AllocError>
        ensures copy { IfOk result (λ it. it ≡ bytes.now) }
        ensures short { length bytes.now ≤ 16 → IsOk result }
    {
        let bytes = SmallVec::from_slice(alloc, bytes)?;
        Ok(Bytes { bytes })
    }

    /// These bytes, which take no memory of their own where there are at most 16.
    #[inline(always)]
    pub fn from_array<const LEN: usize>(
        alloc: Global,
        bytes: [u8; LEN],
    ) -> Result<Bytes, AllocError>
        ensures same { IfOk result (λ it. it ≡ bytes.entry) }
        ensures short { LEN ≤ 16 → IsOk result }
    {
        let bytes = SmallVec::from_array(alloc, bytes)?;
        Ok(Bytes { bytes })
    }

    /// The bytes.
    #[inline(always)]
    pub fn as_slice(&self) -> &[u8]
        ensures { result.now ≡ self.now }
    {
        self.bytes.as_slice()
    }

    /// How many bytes.
    #[inline(always)]
    pub fn len(&self) -> usize
        ensures { result ≡ length self.now }
    {
        self.bytes.len()
    }

    /// The byte at a place.
    #[inline(always)]
    pub fn get(&self, at: usize) -> Option<&u8>
        ensures value { option_copied result ≡ slice_get self.now at }
        ensures within { OnSome result (at < length self.now) }
    {
        self.as_slice().get(at)
    }

    /// Adds a byte at the end. For want of memory nothing changes.
    #[inline(always)]
    pub(crate) fn push(&mut self, byte: u8) -> Result<(), AllocError>
        ensures ok { OnOk result (self.new ≡ self.old ++ byte ∷ []) }
        ensures err { OnErr result (self.new ≡ self.old) }
    {
        self.bytes.push(byte)?;
        Ok(())
    }

    /// Adds these bytes at the end. For want of memory nothing changes.
    pub fn extend_from_slice(&mut self, more: &[u8]) -> Result<(), AllocError>
        ensures ok { OnOk result (self.new ≡ self.old ++ more.now) }
        ensures err { OnErr result (self.new ≡ self.old) }
    {
        self.bytes.extend_from_slice(more)
    }
}
