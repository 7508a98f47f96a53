//! Sets of numbers below 32.

/// How many switches a network has at most, how many nodes, and how many links a switch has.
pub(crate) const MOST: u8 = 32;

/// A set of numbers from 0 to 31.
#[derive(Clone, Copy, Debug, PartialEq, Eq, Drop)]
pub(crate) struct Set {
    pub bits: u32,
}

impl Set {
    pub(crate) const EMPTY: Set = Set { bits: 0 };

    pub(crate) fn has(self, k: u8) -> bool {
        k < MOST && (self.bits >> k) & 1 == 1
    }

    /// The set with a number; a number past 31 adds nothing.
    pub(crate) fn with(self, k: u8) -> Set {
        if k < MOST {
            Set {
                bits: self.bits | (1u32 << k),
            }
        } else {
            self
        }
    }

    pub(crate) fn and(self, other: Set) -> Set {
        Set {
            bits: self.bits & other.bits,
        }
    }

    pub(crate) fn or(self, other: Set) -> Set {
        Set {
            bits: self.bits | other.bits,
        }
    }

    pub(crate) fn without(self, other: Set) -> Set {
        Set {
            bits: self.bits & !other.bits,
        }
    }

    pub(crate) fn is_empty(self) -> bool {
        self.bits == 0
    }

    pub(crate) fn count(self) -> u32 {
        self.bits.count_ones()
    }

    /// The least number of the set.
    pub(crate) fn first(self) -> Option<u8> {
        (0..MOST).find(|k| self.has(*k))
    }
}
