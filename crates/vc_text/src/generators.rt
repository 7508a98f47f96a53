//! The generators of the words that the takes of a run draw.
ghost use Rattle.std.specs.Prelude.{◌≡◌, length};

use rand_core::utils::NextWord;
use rand_pcg::Lcg64Xsh32;
use std::alloc::Global;
use vc_packets::Memory;

/// So many actors may be awake at once: a network has no more.
const ACTORS: usize = 64;

/// For each of the first 64 actors the generator of the words that its takes draw.
#[derive(Drop)]
pub(crate) struct Generators {
    words: Vec<Lcg64Xsh32>,
    ghost all: { length words.items ≡ 64 },
}

impl Generators {
    ghost use Rattle.std.specs.Prelude.{◌≡◌, ◌<◌, ℕ, Some, IfOk};
    ghost use Rattle.vc_text.specs.Private.Generators.{DrawsFor, generator_of};
    ghost use Rattle.vc_threads.specs.Runs.{generator};

    /// The words of each actor are those of the generator of seed 0 and its number.
    pub(crate) fn new(alloc: Global) -> Result<Generators, Memory>
        ensures { IfOk result (λ generators. (k : ℕ) → k < 64 →
            generator_of generators k ≡ Some (generator 0 k)) }
    {
        let mut words = Vec::new(alloc);
        for actor in 0..ACTORS {
            words.push(Lcg64Xsh32::new(0, actor as u64))?;
        }
        Ok(Generators { words })
    }

    /// The next word of an actor.
    pub(crate) fn next_word(&mut self, actor: u8) -> u32
        requires { actor < 64 }
        ensures { DrawsFor self.old actor result self.new }
    {
        self.words[usize::from(actor)].next_word()
    }
}
