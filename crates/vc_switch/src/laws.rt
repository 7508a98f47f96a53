//! Laws of a switch's steps. A law is a function that does nothing, whose contract is the law.
ghost use Rattle.vc_switch.specs.Able.{EachTokenComes};

/// Whatever token comes over a link has a step: it is taken where it is due, and else dropped.
pub fn each_token_comes()
    ensures { EachTokenComes }
{}
