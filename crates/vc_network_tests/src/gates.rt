//! Runs in threads whose gates show who makes the turns.
use crate::events::{act, event};
use crate::networks::{HELLO, accept, replayed};
use crate::play::same_view;
use std::alloc::Global;
use std::sync::Wait;
use std::sync::atomic::{AtomicU64, Ordering};
use std::test::Fail;
use std::thread::{self, Threads};
use vc_core::{Act, Close, Event};
use vc_occam::Move;
use vc_plan::Accepted;
use vc_threads::{Gate, Report, run_threads};

/// A thread that is held looks so often, and then ends: a bound that only threads that never start reach.
const LOOKS: u32 = 10_000_000;

/// Looks until the flags are all there, and leaves the processor to the others between its looks; not, where they never are.
fn wait_for(flags: &AtomicU64, wanted: u64) -> bool {
    for _ in 0..LOOKS {
        if flags.load(Ordering::SeqCst) == wanted {
            return true;
        }
        thread::yield_now();
    }
    false
}

/// How many of these events are the actor's.
fn count(events: &[Event], actor: u8) -> usize {
    events.iter().filter(|event| event.actor == actor).count()
}

/// The acts where node a alone goes on and ends, and then node b does: a grants its buffer's places, and its output begins; b takes
/// both grants with the first words of its generator, grants its own places, and its input begins. The stamps are 1, 2, 2, 3, 3, 4, 5
/// and 6.
const HELD: &[Event] = &[
    event!(0, Fct 0),
    event!(0, Fct 0),
    event!(1, take 0 257813417),
    event!(0, offer 0 on 0),
    event!(1, take 0 407017181),
    event!(1, Fct 0),
    event!(1, Fct 0),
    event!(1, want 0 on 0),
];

/// How a run closed, how many steps node a made, whether the steps are those of the list above, how many messages were offered and
/// taken, and whether a replay of the steps shows the same of the channel.
#[derive(Clone, Copy)]
struct Seen {
    close: Close,
    steps: usize,
    are_held: bool,
    offered: usize,
    taken: usize,
    replays: bool,
}

/// What is seen of a report.
fn see(alloc: Global, accepted: &Accepted, report: &Report) -> Result<Seen, Fail> {
    let again = replayed(alloc, accepted, report.steps.as_slice())?;
    Ok(Seen {
        close: report.close,
        steps: count(report.steps.as_slice(), 0),
        are_held: report.steps.as_slice() == HELD,
        offered: report.state.offered(0).len(),
        taken: report.state.taken(0).len(),
        replays: same_view(&again, &report.state, 0),
    })
}

/// What is seen of a run of the hello network with this gate, of at most so many turns.
fn run<R: Threads + Wait + Sync, G: Gate>(
    rt: &R,
    alloc: Global,
    gate: &G,
    turns: u64,
) -> Result<Seen, Fail> {
    let accepted = accept(alloc, HELLO)?;
    match run_threads(rt, alloc, &accepted, gate, turns, 0) {
        Ok(report) => see(alloc, &accepted, &report),
        Err(_) => Err(Fail::from("a report")),
    }
}

/// Holds the first turns of both nodes until both are there.
#[derive(Drop)]
struct Together {
    here: AtomicU64,
}

impl Gate for Together {
    fn pass(&self, actor: u8, turn: u64) -> bool {
        if turn > 0 || actor > 1 {
            return true;
        }
        self.here.fetch_or(1u64 << actor, Ordering::SeqCst);
        wait_for(&self.here, 3)
    }

    fn ended(&self, _actor: u8) {}
}

#[test]
fn the_nodes_stand_at_their_first_turns_together(rt: HostRuntime) -> Result<(), Fail> {
    let gate = Together {
        here: AtomicU64::new(0),
    };
    let seen = run(&rt, rt.alloc(), &gate, 100_000)?;
    assert!(rt; seen.close != Close::GateClosed);
    Ok(())
}

/// Refuses the first node one turn.
#[derive(Drop)]
struct Refuses {
    turn: u64,
}

impl Gate for Refuses {
    fn pass(&self, actor: u8, turn: u64) -> bool {
        actor != 0 || turn != self.turn
    }

    fn ended(&self, _actor: u8) {}
}

#[test]
fn a_worker_ends_at_the_turn_that_it_is_refused(rt: HostRuntime) -> Result<(), Fail> {
    for turn in 0..41 {
        let seen = run(&rt, rt.alloc(), &Refuses { turn }, 100_000)?;
        assert!(rt;
            matches!(seen.close, Close::GateClosed | Close::Done),
            "turn {turn}"
        );
        assert!(rt; seen.steps as u64 <= turn && seen.replays, "turn {turn}");
    }
    Ok(())
}

/// Holds the first turn of the second node until the first one asks for its turn 60, which is refused.
#[derive(Drop)]
struct HoldsTheSecond {
    asked: AtomicU64,
}

impl Gate for HoldsTheSecond {
    fn pass(&self, actor: u8, turn: u64) -> bool {
        match (actor, turn) {
            (0, 60) => {
                self.asked.store(1, Ordering::SeqCst);
                false
            }
            (1, 0) => wait_for(&self.asked, 1),
            _ => true,
        }
    }

    fn ended(&self, _actor: u8) {}
}

#[test]
fn a_node_that_is_held_makes_no_step(rt: HostRuntime) -> Result<(), Fail> {
    let gate = HoldsTheSecond {
        asked: AtomicU64::new(0),
    };
    let seen = run(&rt, rt.alloc(), &gate, 1_000)?;
    assert!(rt; seen.close == Close::GateClosed);
    assert!(rt; seen.are_held && seen.replays);
    assert_eq!(rt; (seen.offered, seen.taken), (1, 0));
    Ok(())
}
