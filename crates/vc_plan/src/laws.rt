//! Laws of the checker. A law is a function that does nothing, whose contract is the law.
ghost use Rattle.vc_plan.specs.Refusals.{RefusalsAreRight};
ghost use Rattle.vc_plan.specs.Dependencies.{CyclesAreRight};

/// A refusal is right: a plan with a cause to refuse it, but want of memory, is none that may be accepted; where a path is shown that
/// leads astray, the labelling does not deliver; and each plan has one such path only. So [`check`](crate::check) accepts a plan
/// exactly where it may be accepted, and there is one thing that a refused path can show.
pub fn refusals_are_right()
    ensures { RefusalsAreRight }
{}

/// A cycle that is shown refutes ranks: where the ports have ranks that rise along each dependency there is no cycle. And no two cycles
/// are the least.
#[tactic(auto, using(crate::proofs::Ranks::cycles_right))]
pub fn cycles_are_right()
    ensures { CyclesAreRight }
{}
