//! How often numbers came in each row.
ghost use Rattle.std.specs.Prelude.{◌≡◌, ◌==◌, ◌&&◌, ◌≤◌, ℕ, cond, length, OnOk};
ghost use Rattle.vc_stats.specs.Private.Sums.{Adds};
ghost use Rattle.vc_stats.specs.Tallies.{cell, counted, is_at};

use crate::tally::Tally;
use std::alloc::Global;
use vc_packets::Memory;

/// A tally for each of some rows. In a row past the last one no number came.
#[derive(Drop)]
pub(crate) struct Table {
    alloc: Global,
    rows: Vec<Tally>,
}

impl Table {
    /// No number came yet.
    pub(crate) fn new(alloc: Global) -> Table
        ensures { (row n : ℕ) → cell result row n ≡ 0 }
    {
        Table {
            alloc,
            rows: Vec::new(alloc),
        }
    }

    /// A number came in a row, if there is one. It fails only when out of memory.
    pub(crate) fn count(&mut self, row: u8, number: Option<u16>) -> Result<(), Memory>
        ensures { OnOk result ((k n : ℕ) →
            cell self.new k n ≡ counted (row == k && is_at n number) (cell self.old k n)) }
    {
        let place = usize::from(row);
        self.reach(place + 1)?;
        self.rows[place].count(number)
    }

    /// A number came so often in a row. It fails only when out of memory.
    pub(crate) fn set(&mut self, row: u8, number: u16, times: u64) -> Result<(), Memory>
        ensures { OnOk result ((k n : ℕ) →
            cell self.new k n ≡ cond (row == k && number == n) times (cell self.old k n)) }
    {
        let place = usize::from(row);
        self.reach(place + 1)?;
        self.rows[place].set(number, times)
    }

    /// Each number came in each row as often as in both tables. It fails only when out of memory.
    pub(crate) fn add_all(&mut self, other: &Table) -> Result<(), Memory>
        ensures { OnOk result ((k : ℕ) →
            Adds (cell self.old k) (cell other.now k) (cell self.new k)) }
    {
        self.reach(other.rows.len())?;
        for row in 0..other.rows.len() {
            self.rows[row].add_all(&other.rows[row])?;
        }
        Ok(())
    }

    // There are at least so many rows.
    fn reach(&mut self, count: usize) -> Result<(), Memory>
        ensures many { OnOk result (count ≤ length self.new.rows.items) }
        ensures same { OnOk result ((k n : ℕ) → cell self.new k n ≡ cell self.old k n) }
    {
        for _ in self.rows.len()..count {
            self.rows.push(Tally::new(self.alloc))?;
        }
        Ok(())
    }

    /// How often a number came in a row.
    pub(crate) fn get(&self, row: usize, number: usize) -> u64
        ensures { result ≡ cell self.now row number }
    {
        match self.rows.get(row) {
            Some(tally) => tally.get(number),
            None => 0,
        }
    }
}
