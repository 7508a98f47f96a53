//! A number for each switch.
use crate::set::{MOST, Set};

/// The number that is not there: further than any distance.
pub(crate) const FAR: u64 = u64::MAX;

/// A number for each switch, `FAR` at first.
#[derive(Clone, Copy, Debug, Drop)]
pub(crate) struct Column {
    numbers: [u64; 32],
}

impl Column {
    pub(crate) fn new() -> Column {
        Column { numbers: [FAR; 32] }
    }

    pub(crate) fn at(&self, k: u8) -> u64 {
        match self.numbers.get(usize::from(k)) {
            Some(number) => *number,
            None => FAR,
        }
    }

    /// Sets the number of a switch; a switch past 31 has none.
    pub(crate) fn put(&mut self, k: u8, number: u64) {
        if k < MOST {
            self.numbers[usize::from(k)] = number;
        }
    }

    /// The least number of these switches.
    pub(crate) fn least(&self, among: Set) -> u64 {
        let mut least = FAR;
        for k in 0..MOST {
            if among.has(k) {
                least = least.min(self.at(k));
            }
        }
        least
    }

    /// These switches, as far as they have that number.
    pub(crate) fn those_at(&self, among: Set, number: u64) -> Set {
        let mut found = Set::EMPTY;
        for k in 0..MOST {
            if among.has(k) && self.at(k) == number {
                found = found.with(k);
            }
        }
        found
    }
}
