//! Where the messages of a log end.
ghost use Rattle.std.specs.Prelude.{◌≡◌, [], ◌∷◌, ◌++◌, ◌-◌, length, take, slice_get, slice_index, OnOk, OnErr};

use sqlite_items::Items;
use std::alloc::Global;
use std::marker::Model;
use vc_packets::Memory;

/// A list of numbers, which contracts see as the list. The first ones are the multiples of a step, as the ends of messages of one length
/// are, and take no memory; each later one is recorded.
#[derive(Drop)]
pub(crate) struct Ends {
    step: usize,
    even: usize,
    others: Items<usize>,
}

impl Model for Ends {
    ghost use Rattle.std.specs.Prelude.{ℕ, List, ◌++◌};
    ghost use Rattle.vc_blocks.specs.Private.Logs.{multiples, Countable};

    ghost Value = { List ℕ };

    ghost view = { λ x. multiples x.step x.even ++ x.others };

    ghost invariant = { λ x. Countable x.step x.even x.others };
}

impl Ends {
    /// No numbers.
    pub(crate) fn new(alloc: Global) -> Ends
        ensures { result ≡ [] }
    {
        Ends {
            step: 0,
            even: 0,
            others: Items::new(alloc),
        }
    }

    /// How many numbers.
    pub(crate) fn len(&self) -> usize
        ensures { result ≡ length self.now }
    {
        self.even + self.others.len()
    }

    /// The number at a place.
    pub(crate) fn get(&self, at: usize) -> Option<usize>
        ensures { result ≡ slice_get self.now at }
    {
        if at < self.even {
            return Some((at + 1) * self.step);
        }
        self.others.get(at - self.even).copied()
    }

    /// The number before a place; 0 before the first.
    pub(crate) fn before(&self, at: usize) -> usize
        ensures { result ≡ slice_index (0 ∷ self.now) at }
    {
        if at == 0 {
            return 0;
        }
        match self.get(at - 1) {
            Some(number) => number,
            None => 0,
        }
    }

    /// Adds a number at the end. For want of memory nothing changes.
    #[inline(always)]
    pub(crate) fn push(&mut self, number: usize) -> Result<(), Memory>
        ensures ok { OnOk result (self.new ≡ self.old ++ number ∷ []) }
        ensures err { OnErr result (self.new ≡ self.old) }
    {
        let len = self.len();
        if len == usize::MAX {
            return Err(Memory);
        }
        let step = if len == 0 { number } else { self.step };
        if self.others.is_empty() && step.checked_mul(self.even + 1) == Some(number) {
            self.step = step;
            self.even += 1;
            return Ok(());
        }
        self.others.push(number)?;
        Ok(())
    }

    /// Takes the last number away, if there is one.
    pub(crate) fn pop(&mut self)
        ensures { self.new ≡ take (length self.old - 1) self.old }
    {
        if self.others.pop().is_none() && self.even > 0 {
            self.even -= 1;
        }
    }
}
