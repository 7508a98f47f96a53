//! Stamps of acts.
ghost use Rattle.std.specs.Prelude.{◌≡◌, ◌<◌, MatchOption};
ghost use Rattle.vc_network.specs.LocalRun as local;
ghost use Rattle.vc_threads.specs.Stamps.{step_with};

/// The stamp of the next act, after an act with the stamp `clock`: one more. For a take it is one more than the greater of that and
/// the stamp of the item that is taken. None where that is above `u64::MAX`.
pub fn next_stamp(clock: u64, item: Option<u64>) -> Option<u64>
    ensures { MatchOption result (u64.MAX < local.next_stamp clock (step_with item))
        (λ stamp. stamp ≡ local.next_stamp clock (step_with item)) }
{
    match item {
        Some(at) => clock.max(at).checked_add(1),
        None => clock.checked_add(1),
    }
}
