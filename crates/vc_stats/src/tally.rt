//! How often numbers came.
ghost use Rattle.std.specs.Prelude.{◌≡◌, ◌==◌, ◌≤◌, ℕ, cond, length, OnOk};
ghost use Rattle.vc_stats.specs.Private.Sums.{Adds};
ghost use Rattle.vc_stats.specs.Tallies.{counted, entry, is_at};

use std::alloc::Global;
use vc_packets::Memory;

/// How often each number came. A number past the last entry never came, and an entry stays at 2^64 - 1.
#[derive(Drop)]
pub(crate) struct Tally {
    entries: Vec<u64>,
}

impl Tally {
    /// No number came yet.
    pub(crate) fn new(alloc: Global) -> Tally
        ensures { (n : ℕ) → entry result n ≡ 0 }
    {
        Tally {
            entries: Vec::new(alloc),
        }
    }

    /// A number came, if there is one. It fails only when out of memory.
    pub(crate) fn count(&mut self, number: Option<u16>) -> Result<(), Memory>
        ensures { OnOk result ((n : ℕ) →
            entry self.new n ≡ counted (is_at n number) (entry self.old n)) }
    {
        match number {
            Some(number) => self.add(number),
            None => Ok(()),
        }
    }

    // A number came once more.
    fn add(&mut self, number: u16) -> Result<(), Memory>
        ensures { OnOk result ((n : ℕ) →
            entry self.new n ≡ counted (number == n) (entry self.old n)) }
    {
        let place = usize::from(number);
        self.reach(place + 1)?;
        self.entries[place] = self.entries[place].saturating_add(1);
        Ok(())
    }

    /// A number came so often. It fails only when out of memory.
    pub(crate) fn set(&mut self, number: u16, times: u64) -> Result<(), Memory>
        ensures { OnOk result ((n : ℕ) →
            entry self.new n ≡ cond (number == n) times (entry self.old n)) }
    {
        let place = usize::from(number);
        self.reach(place + 1)?;
        self.entries[place] = times;
        Ok(())
    }

    /// Each number came as often as in both tallies. It fails only when out of memory.
    pub(crate) fn add_all(&mut self, other: &Tally) -> Result<(), Memory>
        ensures { OnOk result (Adds (entry self.old) (entry other.now) (entry self.new)) }
    {
        self.reach(other.entries.len())?;
        for place in 0..other.entries.len() {
            self.entries[place] = self.entries[place].saturating_add(other.entries[place]);
        }
        Ok(())
    }

    // There are at least so many entries.
    fn reach(&mut self, count: usize) -> Result<(), Memory>
        ensures many { OnOk result (count ≤ length self.new.entries.items) }
        ensures same { OnOk result ((n : ℕ) → entry self.new n ≡ entry self.old n) }
    {
        if count > self.entries.len() {
            self.entries.resize(count, 0)?;
        }
        Ok(())
    }

    /// How often a number came.
    pub(crate) fn get(&self, number: usize) -> u64
        ensures { result ≡ entry self.now number }
    {
        match self.entries.get(number) {
            Some(entry) => *entry,
            None => 0,
        }
    }
}
