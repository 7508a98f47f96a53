//! A law of what is reported. A law is a function that does nothing, whose contract is the law.
ghost use Rattle.vc_explain.specs.Laws.{NothingOfLawful, OffencesAreFound};

/// Of each process that `check` refuses for its use of a channel or a variable two places are given, and of a part that uses them
/// lawfully none is. So what is reported is the first thing, by site, that is wrong.
pub fn offences_are_found()
    ensures found { OffencesAreFound }
    ensures lawful { NothingOfLawful }
{}
