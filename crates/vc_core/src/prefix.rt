//! Packets while they come.
ghost use Rattle.std.specs.Prelude.{◌≡◌, ◌++◌, [], ◌∷◌, ℕ, List, take};

use arrayvec::ArrayVec;

/// How many bytes are kept of a packet: one more than any packet has, with six headers and 32 bytes of data.
const KEPT: usize = 45;

/// What is kept of the bytes that have come of a packet: all, up to one more than any packet has.
#[derive(Drop)]
pub(crate) struct Prefix {
    bytes: ArrayVec<u8, 45>,
}

impl Prefix {
    /// What is kept of a packet of which these bytes have come.
    pub(crate) fn of(bytes: &[u8]) -> Prefix
        ensures { result.bytes.items ≡ take 45 bytes.now }
    {
        let mut kept = ArrayVec::new();
        let _fits = kept.try_extend_from_slice(first_of(bytes));
        Prefix { bytes: kept }
    }

    /// What is kept where one byte more has come.
    pub(crate) fn with(self, byte: u8) -> Prefix
        ensures { (got : List ℕ) →
            self.bytes.items ≡ take 45 got →
            result.bytes.items ≡ take 45 (got ++ byte ∷ []) }
    {
        let mut bytes = self.bytes;
        if !bytes.is_full() {
            bytes.push(byte);
        }
        Prefix { bytes }
    }

    /// The bytes that are kept.
    pub(crate) fn bytes(&self) -> &[u8]
        ensures { result.now ≡ self.now.bytes.items }
    {
        self.bytes.as_slice()
    }
}

// The first of these bytes, as many as are kept.
fn first_of(bytes: &[u8]) -> &[u8]
    ensures { result.now ≡ take 45 bytes.now }
{
    match bytes.get(..KEPT) {
        Some(first) => first,
        None => bytes,
    }
}
