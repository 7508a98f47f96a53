//! Laws of runs. A law is a function that does nothing, whose contract is the law.
ghost use Rattle.vc_text.specs.OneRun.{SeedsHaveOneRun};

/// A seed has one run: two runs of a plan in the order of one seed make the same events, as far as the shorter one goes.
pub fn a_seed_has_one_run()
    ensures { SeedsHaveOneRun }
{}
