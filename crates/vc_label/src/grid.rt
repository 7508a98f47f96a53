//! Something for each pair of numbers below 32.
use crate::set::MOST;
use std::alloc::Global;
use vc_packets::Memory;

/// Something for each pair of numbers below 32, the same for all at first.
#[derive(Drop)]
pub(crate) struct Grid<T> {
    cells: Vec<T>,
    empty: T,
}

impl<T: Copy + Drop> Grid<T> {
    pub(crate) fn new(alloc: Global, empty: T) -> Result<Grid<T>, Memory> {
        let mut cells = Vec::new(alloc);
        for _ in 0..1024u16 {
            cells.push(empty)?;
        }
        Ok(Grid { cells, empty })
    }

    pub(crate) fn at(&self, a: u8, b: u8) -> T {
        match self.cells.get(usize::from(a) * 32 + usize::from(b)) {
            Some(cell) => *cell,
            None => self.empty,
        }
    }

    /// Sets what is at a pair; nothing is at numbers past 31.
    pub(crate) fn put(&mut self, a: u8, b: u8, x: T) {
        if b < MOST {
            if let Some(cell) = self.cells.get_mut(usize::from(a) * 32 + usize::from(b)) {
                *cell = x;
            }
        }
    }
}
