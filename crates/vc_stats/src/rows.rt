//! Numbers in rows.
ghost use Rattle.std.specs.Prelude.{◌≡◌, ◌==◌, ◌&&◌, ◌||◌, ◌<◌, ℕ, false, length, OnOk};
ghost use Rattle.vc_stats.specs.Tallies.{is_at};
ghost use Rattle.vc_stats.specs.Rows.{has, row_of};

use std::alloc::Global;
use vc_packets::Memory;

/// Some numbers in each row. A row past the last one has none.
#[derive(Drop)]
pub(crate) struct Rows {
    alloc: Global,
    rows: Vec<Vec<u16>>,
}

impl Rows {
    /// No number in any row.
    pub(crate) fn new(alloc: Global) -> Rows
        ensures { (row n : ℕ) → has result row n ≡ false }
    {
        Rows {
            alloc,
            rows: Vec::new(alloc),
        }
    }

    /// A number joins a row, if there is one. It fails only when out of memory.
    pub(crate) fn add(&mut self, row: Option<u16>, number: u16) -> Result<(), Memory>
        ensures { OnOk result ((k n : ℕ) →
            has self.new k n ≡ (has self.old k n || (is_at k row && number == n))) }
    {
        match row {
            Some(row) => self.push(row, number),
            None => Ok(()),
        }
    }

    // A number joins a row.
    fn push(&mut self, row: u16, number: u16) -> Result<(), Memory>
        ensures { OnOk result ((k n : ℕ) →
            has self.new k n ≡ (has self.old k n || (row == k && number == n))) }
    {
        let place = usize::from(row);
        self.reach(place)?;
        self.rows[place].push(number)?;
        Ok(())
    }

    // There is such a row.
    fn reach(&mut self, place: usize) -> Result<(), Memory>
        requires { place < 65536 }
        ensures within { OnOk result (place < length self.new.rows.items) }
        ensures same { OnOk result ((k n : ℕ) → has self.new k n ≡ has self.old k n) }
    {
        for _ in self.rows.len()..place + 1 {
            self.rows.push(Vec::new(self.alloc))?;
        }
        Ok(())
    }

    /// The numbers in a row.
    pub(crate) fn row(&self, row: u8) -> &[u16]
        ensures { result.now ≡ row_of self.now row }
    {
        match self.rows.get(usize::from(row)) {
            Some(numbers) => numbers.as_slice(),
            None => &[],
        }
    }
}
