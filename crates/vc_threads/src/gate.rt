//! Who may go on.
ghost use Rattle.std.specs.Prelude.{◌≡◌};

use std::marker::Model;
use std::sync::atomic::{AtomicU64, Ordering};

/// Says of each turn whether an actor may make it. Contracts know of each actor and turn whether the gate may refuse it; a gate that does
/// not say may refuse any.
pub trait Gate: Sync {
    ghost use Rattle.std.specs.Prelude.{◌≡◌, ℕ, false};
    ghost use Rattle.vc_threads.specs.Gates.{refuses_any};

    ghost refuses: { Self → ℕ → ℕ → Type 0 } = { λ _. refuses_any };

    /// Whether the actor may make this turn, counted from 0. It is asked before each turn, in the actor's thread, and where the answer is
    /// no the actor's worker ends.
    fn pass(&self, actor: u8, turn: u64) -> bool
        ensures { result ≡ false → refuses self.now actor turn };

    /// The actor's process has ended. Each node's worker says so once.
    fn ended(&self, actor: u8);
}

/// The gate that closes once the process of every node has ended. Contracts see how many nodes there are.
#[derive(Drop)]
pub struct EndGate {
    nodes: u8,
    // what `ended` is once all have ended
    all: u64,
    ended: AtomicU64,
}

impl Model for EndGate {
    ghost use Rattle.std.specs.Prelude.{ℕ};

    ghost Value = { ℕ };

    ghost view = { λ gate. gate.nodes };
}

impl EndGate {
    /// The gate of a network with so many nodes: its first actors. It is open until [`Gate::ended`] was called for each, and never closes
    /// where they are more than 64.
    pub fn new(nodes: u8) -> EndGate
        ensures { result ≡ nodes }
    {
        let all = if nodes < 64 {
            (1u64 << nodes) - 1
        } else {
            u64::MAX
        };
        EndGate {
            nodes,
            all,
            ended: AtomicU64::new(0),
        }
    }
}

impl Gate for EndGate {
    fn pass(&self, _actor: u8, _turn: u64) -> bool {
        self.ended.load(Ordering::SeqCst) != self.all
    }

    fn ended(&self, actor: u8) {
        if actor < self.nodes && self.nodes <= 64 {
            self.ended.fetch_or(1u64 << actor, Ordering::SeqCst);
        }
    }
}
