//! A law of lawful use. A law is a function that does nothing, whose contract is the law.
ghost use Rattle.vc_process.specs.FirstOffender.{OffendersAreUnlawful, OneOffenderIsFirst};

/// What `check_use` says against a process is right, and there is nothing else to say: a process with a first offender does not use its
/// channels and variables lawfully, and it has only one.
pub fn a_first_offender_refutes()
    ensures unlawful { OffendersAreUnlawful }
    ensures one { OneOffenderIsFirst }
{}
