//! All actors' acts as one list of events.
ghost use Rattle.std.specs.Prelude.{◌≡◌, ◌⊎◌, ◌↔◌, ◌<◌, List, Some, length, map, IfOk, IfSome, IsTrue, MatchOption};
ghost use Rattle.std.specs.List.{AllByRecursion};
ghost use Rattle.vc_network.specs.Merge.{Made, IsMerge, AreDistinct, RunRises, run_of};
ghost use Rattle.vc_threads.specs.MergedRuns.{numbered, made_event};
ghost use Rattle.vc_threads.specs.Private.MergedRuns.{front_of, id_at, FindsFirst, FindsWith, HavePassed, IdsRise};
ghost use Rattle.vc_actor.specs.declared.act.Act.{Act as SpeltAct};

use crate::act_log::ActorActs;
use std::alloc::{AllocError, Global};
use vc_core::Event;
use vc_packets::Memory;

/// Where a run has come: the place of its next act, and that act's stamp, if it has one.
#[derive(Clone, Copy, Drop)]
pub(crate) struct Front {
    place: usize,
    at: Option<u64>,
}

// A run that has come to a place.
fn front_at(run: &ActorActs, place: usize) -> Front
    ensures { result ≡ front_of run.now place }
{
    let at = match run.acts.get(place) {
        Some(act) => Some(act.0),
        None => None,
    };
    Front { place, at }
}

// The runs, each at its first act.
fn first_fronts(alloc: Global, runs: &[ActorActs]) -> Result<Vec<Front>, AllocError>
    ensures { IfOk result (λ v. v.items ≡ map (λ r. front_of r 0) runs.now) }
{
    let mut fronts = Vec::new(alloc);
    for run in runs {
        fronts.push(front_at(run, 0))?;
    }
    Ok(fronts)
}

// Whether run k's next act, with this stamp, comes before the first that was found.
fn comes_before(runs: &[ActorActs], k: usize, at: u64, first: Option<(u64, usize)>) -> bool
    requires within { k < length runs.now }
    requires first { IfSome first (λ f. f.1 < length runs.now) }
    ensures { MatchOption first (IsTrue result)
        (λ f.
        IsTrue result ↔ ((at < f.0) ⊎ ((at ≡ f.0) × (id_at runs.now k < id_at runs.now f.1)))) }
{
    match first {
        Some((least, other)) => at < least || at == least && runs[k].id < runs[other].id,
        None => true,
    }
}

// The run whose next act is the first of all, by stamp, then actor.
fn first_of(runs: &[ActorActs], fronts: &[Front]) -> Option<usize>
    requires { length fronts.now ≡ length runs.now }
    ensures within { IfSome result (λ k. k < length runs.now) }
    ensures first { FindsFirst runs.now fronts.now result }
{
    let mut first = None;
    for k in 0..fronts.len() {
        if let Some(at) = fronts[k].at {
            if comes_before(runs, k, at, first) {
                first = Some((at, k));
            }
        }
    }
    match first {
        Some((_, k)) => Some(k),
        None => None,
    }
}

// The actor of a run.
fn id_of(runs: &[ActorActs], k: usize) -> u8
    requires { k < length runs.now }
    ensures { result ≡ id_at runs.now k }
{
    runs[k].id
}

// Whether each run's actor has a greater number than those before it.
fn are_in_order(runs: &[ActorActs]) -> bool
    ensures { IsTrue result ↔ IdsRise runs.now }
{
    for k in 1..runs.len() {
        if id_of(runs, k - 1) >= id_of(runs, k) {
            return false;
        }
    }
    true
}

// Whether the run's next act has this stamp.
fn comes_at(front: Front, stamp: u64) -> bool
    ensures { IsTrue result ↔ (front.at ≡ Some stamp) }
{
    match front.at {
        Some(at) => at == stamp,
        None => false,
    }
}

// The first run from one on whose next act has this stamp.
fn first_with(fronts: &[Front], from: usize, stamp: u64) -> Option<usize>
    ensures { FindsWith fronts.now from stamp result }
{
    for k in from..fronts.len() {
        if comes_at(fronts[k], stamp) {
            return Some(k);
        }
    }
    None
}

// The run whose next act is the first of all, by stamp, then actor. Of runs in their actors' order it is known that no next act has a
// lesser stamp than this one, and that none of the runs before `from` has this one.
fn next_of(
    runs: &[ActorActs],
    fronts: &[Front],
    in_order: bool,
    from: usize,
    stamp: u64,
) -> Option<usize>
    requires count { length fronts.now ≡ length runs.now }
    requires order { IsTrue in_order → IdsRise runs.now }
    requires passed { HavePassed fronts.now in_order from stamp }
    ensures within { IfSome result (λ k. k < length runs.now) }
    ensures first { FindsFirst runs.now fronts.now result }
{
    if in_order {
        if let Some(k) = first_with(fronts, from, stamp) {
            return Some(k);
        }
    }
    first_of(runs, fronts)
}

/// All acts of the runs as events, by stamp, then actor. The runs are of different actors, and the stamps of each rise. The only error
/// is want of memory.
pub fn merge(alloc: Global, runs: &[ActorActs]) -> Result<Vec<Event>, Memory>
    requires distinct { AreDistinct (map numbered runs.now) }
    requires rising { AllByRecursion RunRises (map numbered runs.now) }
    ensures { IfOk result
        (λ events.
        (merged : List (Made SpeltAct)) ×
        IsMerge (run_of (map numbered runs.now)) merged ×
        (events.items ≡ map made_event merged)) }
{
    let mut events = Vec::new(alloc);
    let mut fronts = first_fronts(alloc, runs)?;
    let in_order = are_in_order(runs);
    let (mut from, mut stamp) = (0, 0);
    while let Some(k) = next_of(runs, fronts.as_slice(), in_order, from, stamp) {
        let run = &runs[k];
        let place = fronts[k].place;
        let (at, act) = run.acts[place];
        events.push(Event { actor: run.id, act })?;
        fronts[k] = front_at(run, place + 1);
        from = k + 1;
        stamp = at;
    }
    Ok(events)
}
