//! Where a value is in the network file.
ghost use Rattle.std.specs.Prelude.{◌≡◌, ◌==◌, ◌<◌, [], ◌∷◌, IfOk, Some, length, slice_get};

use crate::word::Word;
use sqlite_items::Items;
use std::alloc::Global;
use std::marker::Model;
use vc_packets::Memory;

/// A step from a value into one of its parts.
#[derive(Clone, Copy, Debug, PartialEq, Eq, Drop)]
pub enum Step {
    /// Into an object's field.
    Field(Word),
    /// Into a list's item of that index, from 0.
    Index(usize),
}

/// The steps from the top of the file to a value.
#[derive(Debug, Drop)]
pub struct Path {
    // the last step first, so that a path grows at its front on the way out
    upward: Items<Step>,
}

impl Model for Path {
    ghost use Rattle.std.specs.Prelude.{List, reverse};
    ghost use Rattle.vc_reader.specs.declared.path.Step.{Step};

    ghost Value = { List Step };

    ghost view = { λ p. reverse p.upward };
}

impl Path {
    /// The path to this place. It takes no memory.
    pub(crate) fn here(alloc: Global) -> Path
        ensures { result ≡ [] }
    {
        Path {
            upward: Items::new(alloc),
        }
    }

    /// The same place, seen from one step further up.
    pub(crate) fn under(self, step: Step) -> Result<Path, Memory>
        ensures { IfOk result (λ p. p ≡ step ∷ self) }
    {
        let Path { mut upward } = self;
        upward.push(step)?;
        Ok(Path { upward })
    }

    /// How many steps it has.
    pub fn len(&self) -> usize
        ensures { result ≡ length self.now }
    {
        self.upward.len()
    }

    /// Whether it is the top itself.
    pub fn is_empty(&self) -> bool
        ensures { result ≡ (length self.now == 0) }
    {
        self.len() == 0
    }

    /// The step of that number from the top.
    pub fn step(&self, n: usize) -> Step
        requires { n < length self.now }
        ensures { slice_get self.now n ≡ Some result }
    {
        let upward = self.upward.as_slice();
        upward[upward.len() - 1 - n]
    }
}
