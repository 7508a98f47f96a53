//! What becomes of the acts of a worker.

use std::alloc::Global;
use vc_core::Act;
use vc_packets::Memory;

/// Takes the acts of one worker, in order. Contracts know of each actor and of each list of acts with their stamps whether the log may
/// hold these acts of this actor.
pub trait ActLog: Send + Drop {
    ghost use Rattle.std.specs.Prelude.{◌≡◌, ℕ, List, [], ◌∷◌, ◌++◌, OnOk};
    ghost use Rattle.vc_actor.specs.declared.act.Act.{Act as SpeltAct};

    ghost holds: { Self → ℕ → List (ℕ × SpeltAct) → Type 0 };

    ghost has_room: { Self → Type 0 };

    /// A log of an actor that did nothing yet.
    fn new(alloc: Global, actor: u8) -> Self
        ensures { holds result actor [] };

    /// Makes room for one act more. It fails only when out of memory.
    fn make_room(&mut self) -> Result<(), Memory>
        ensures holds { (actor : ℕ) (acts : List (ℕ × SpeltAct)) →
            holds self.old actor acts → holds self.new actor acts }
        ensures room { OnOk result (has_room self.new) };

    /// Takes the next act, for which it has room.
    fn record(&mut self, stamp: u64, act: Act)
        requires { has_room self.old }
        ensures { (actor : ℕ) (acts : List (ℕ × SpeltAct)) →
            holds self.old actor acts → holds self.new actor (acts ++ (stamp, act) ∷ []) };
}

/// The acts of an actor, in order, each with its stamp.
#[derive(Drop)]
pub struct ActorActs {
    /// The actor's number.
    pub id: u8,
    /// The acts.
    pub acts: Vec<(u64, Act)>,
}

/// Each act is kept.
impl ActLog for ActorActs {
    ghost use Rattle.std.specs.Prelude.{◌≡◌, ◌<◌};
    ghost use Rattle.std.specs.Vec.{vec_capacity, vec_len};

    ghost holds = { λ log actor acts. (log.id ≡ actor) × (log.acts.items ≡ acts) };

    ghost has_room = { λ log. vec_len log.acts < vec_capacity log.acts };

    fn new(alloc: Global, actor: u8) -> ActorActs {
        ActorActs {
            id: actor,
            acts: Vec::new(alloc),
        }
    }

    #[inline(always)]
    fn make_room(&mut self) -> Result<(), Memory> {
        self.acts.reserve(1)?;
        Ok(())
    }

    #[inline(always)]
    fn record(&mut self, stamp: u64, act: Act) {
        self.acts.push_reserved((stamp, act));
    }
}

/// Keeps no act.
#[derive(Drop)]
pub struct NoActs;

impl ActLog for NoActs {
    ghost use Rattle.std.specs.Prelude.{⊤};

    ghost holds = { λ _ _ _. ⊤ };

    ghost has_room = { λ _. ⊤ };

    fn new(_alloc: Global, _actor: u8) -> NoActs {
        NoActs
    }

    #[inline(always)]
    fn make_room(&mut self) -> Result<(), Memory> {
        Ok(())
    }

    #[inline(always)]
    fn record(&mut self, _stamp: u64, _act: Act) {}
}
