//! Counts of the acts of the workers.
ghost use Rattle.std.specs.Prelude.{◌≡◌, ◌≤◌, ◌++◌, [], ◌∷◌, ℕ, List, Some, IfOk, IfSome, OnOk, length, slice_get};
ghost use Rattle.vc_actor.specs.declared.act.Act.{Act as SpeltAct};
ghost use Rattle.vc_core.specs.declared.event.Event.{Event as Happening};
ghost use Rattle.vc_stats.specs.Counts.{AreCounts, Counts, most_events};
ghost use Rattle.vc_stats.specs.Private.ActCounts.{CountsActs, all_events, events_by};
ghost use Rattle.vc_stats.specs.declared.counted_acts.CountedActs.{CountedActs as Counted};

use crate::stats::Stats;
use std::alloc::Global;
use vc_core::{Act, Event};
use vc_packets::Memory;
use vc_threads::ActLog;

/// The counts of the acts of an actor.
#[derive(Drop)]
pub(crate) struct CountedActs {
    actor: u8,
    // none once memory ran out
    stats: Option<Stats>,
}

// Counts an event, if there are counts.
fn count_event(stats: &mut Option<Stats>, event: &Event) -> Result<(), Memory>
    ensures { OnOk result ((es : List Happening) →
        IfSome stats.old (λ s. Counts s es) →
        IfSome stats.new (λ s. Counts s (es ++ event.now ∷ []))) }
{
    match stats {
        Some(stats) => stats.count(event),
        None => Ok(()),
    }
}

/// Each act is counted, and none is kept.
impl ActLog for CountedActs {
    ghost use Rattle.std.specs.Prelude.{⊤};
    ghost use Rattle.vc_stats.specs.Private.ActCounts.{CountsActs};

    ghost holds = { CountsActs };

    ghost has_room = { λ _. ⊤ };

    fn new(alloc: Global, actor: u8) -> CountedActs {
        CountedActs {
            actor,
            stats: Some(Stats::new(alloc)),
        }
    }

    #[inline(always)]
    fn make_room(&mut self) -> Result<(), Memory> {
        match &self.stats {
            Some(_) => Ok(()),
            None => Err(Memory),
        }
    }

    fn record(&mut self, _stamp: u64, act: Act) {
        let event = Event {
            actor: self.actor,
            act,
        };
        if count_event(&mut self.stats, &event).is_err() {
            self.stats = None;
        }
    }
}

// Adds the counts of an actor. It fails if its worker ran out of memory for them.
fn add_counts(all: &mut Stats, log: &CountedActs) -> Result<(), Memory>
    ensures { OnOk result ((actor : ℕ) (acts : List (ℕ × SpeltAct)) (es : List Happening) →
        CountsActs log.now actor acts → length acts ≤ most_events → AreCounts all.old es →
        AreCounts all.new (es ++ events_by actor acts)) }
{
    let Some(stats) = &log.stats else {
        return Err(Memory);
    };
    all.add(stats)?;
    Ok(())
}

/// The counts of the acts of all actors, whose logs these are, in the actors' order. It fails if a worker ran out of memory for its
/// counts, if there are more acts than `u64::MAX`, and when out of memory.
pub(crate) fn counts_of(alloc: Global, logs: &[CountedActs]) -> Result<Stats, Memory>
    ensures { IfOk result (λ stats. (acts : ℕ → List (ℕ × SpeltAct)) →
        ((k : ℕ) (log : Counted) → slice_get logs.now k ≡ Some log →
        CountsActs log k (acts k)) →
        ((k : ℕ) → length (acts k) ≤ most_events) →
        AreCounts stats (all_events acts (length logs.now))) }
{
    let mut all = Stats::new(alloc);
    for log in logs {
        add_counts(&mut all, log)?;
    }
    Ok(all)
}
