//! What is proved of the definitions of the command line.
ghost use Rattle.vc_words.specs.Examples.{LinesAreRead};

/// What some command lines ask for, each option written and left out, and what is wrong with others.
#[tactic(auto, using(crate::proofs::Examples::lines))]
pub fn lines_are_read()
    ensures { LinesAreRead }
{}
